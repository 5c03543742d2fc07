// The record that serves every kind of gate, and sets of lines.

// A set of lines, line i at the bit of weight 2^i; also a state: the set of the lines that are 1.
// A plain number, so that `0..1 << lines` are all states.
pub type LineSet = u32;

// How many lines a `LineSet` can speak of: no cascade has more.
pub const WIDTH: u8 = 32;

// What a control wants of its line: 1 where it is positive, 0 where it is negative.
#[derive(Clone, Copy, PartialEq, Eq, Debug)]
pub enum Sign {
    Positive,
    Negative,
}

// Why a gate is refused.
#[derive(Clone, Copy, PartialEq, Eq, Debug)]
pub enum GateRefusal {
    // It is not well formed for the lines of its place.
    NotWellFormed,
}

// A gate: the lines `a` and `b`, and the lines that are positive and negative controls.
// What `a` and `b` mean is the kind's affair; a kind that does not use one has 0 there.
#[derive(Clone, Copy, PartialEq, Eq, PartialOrd, Ord, Hash, Debug, Default)]
pub struct Gate {
    pub a: u8,
    pub b: u8,
    pub positive: LineSet,
    pub negative: LineSet,
}

impl Gate {
    // The record of zeros, as memory holds it where no gate has been written.
    pub const BLANK: Gate = Gate {
        a: 0,
        b: 0,
        positive: 0,
        negative: 0,
    };
}
