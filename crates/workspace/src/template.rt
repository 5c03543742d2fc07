// Templates, as they are proposed and as a shelf holds them.
use fixed_list::FixedList;
use gates::Gate;

// A set of positions in a template, position i at the bit of weight 2^i.
pub type PositionSet = u32;

// How many lines a template has at most.
pub const MOST_LINES: u8 = 4;

// How many gates a template has at most.
pub const MOST_GATES: usize = 8;

// How many groups a template lists at most.
pub const MOST_GROUPS: usize = 3;

// A template that is proposed: any number of lines, gates and groups.
#[derive(Clone, Copy)]
pub struct Proposal<'a> {
    pub lines: u8,
    pub gates: &'a [Gate],
    pub groups: &'a [PositionSet],
}

// A template as it is held.
#[derive(Clone, Copy)]
pub struct Template {
    pub(super) lines: u8,
    pub(super) gates: FixedList<Gate, MOST_GATES>,
    pub(super) groups: FixedList<PositionSet, MOST_GROUPS>,
}
