// Templates posed: directed, rotated and flipped, still on their own lines.
use super::template::MOST_GATES;
use fixed_list::FixedList;
use gates::{Gate, LineSet};

// How a template is posed: whether backward, by how many gates its list is rotated after that, and which of its lines are flipped.
#[derive(Clone, Copy)]
pub(crate) struct Pose {
    pub(crate) back: bool,
    pub(crate) rotation: usize,
    pub(crate) flips: LineSet,
}

// A gate with the position that it has in its template.
#[derive(Clone, Copy)]
pub(crate) struct Member {
    pub(crate) position: usize,
    pub(crate) gate: Gate,
}

impl Member {
    // What stands where a list has no member.
    pub(crate) const BLANK: Member = Member {
        position: 0,
        gate: Gate::BLANK,
    };
}

// The gates of a posed template, in order.
pub(crate) type Posed = FixedList<Member, MOST_GATES>;

// The gates of a cascade that stand for the first of a template's.
pub(crate) type Chosen = FixedList<Gate, MOST_GATES>;
