// A full adder as a cascade of Toffoli gates: lines 0, 1 and 2 are added.
use gates::Gate;
use samples::gate;

// How many lines the adder has.
pub const LINES: u8 = 4;

// How many states so many lines have.
pub const STATES: usize = 16;

// Line 2 ends as the sum, and line 3 is inverted where there is a carry.
pub const ADDER: [Gate; 4] = [
    gate!(t 3 +0 +1),
    gate!(t 1 +0),
    gate!(t 3 +1 +2),
    gate!(t 2 +1),
];

// Line 0 becomes line 3, line 1 line 0, line 2 line 1 and line 3 line 2.
pub const TABLE: [u8; 4] = [3, 0, 1, 2];

// A gate that is put in between.
pub const EXTRA: Gate = gate!(t 0 -3);
