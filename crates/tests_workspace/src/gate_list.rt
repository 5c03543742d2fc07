// Gates for the tests, each as it is written.
use gates::Gate;
use samples::gate;

// `t 0`.
pub const T0: Gate = gate!(t 0);

// `t 1`.
pub const T1: Gate = gate!(t 1);

// `t 3`.
pub const T3: Gate = gate!(t 3);

// `t 0 +1`.
pub const T0_1: Gate = gate!(t 0 +1);

// `t 0 +1 +2`.
pub const T0_1_2: Gate = gate!(t 0 +1 +2);

// `t 1 -3`.
pub const T1_NOT_3: Gate = gate!(t 1 -3);

// `t 0 +2 -3`.
pub const T0_2_NOT_3: Gate = gate!(t 0 +2 -3);

// `t 0 +0`, which is well formed for no number of lines.
pub const OWN_CONTROL: Gate = gate!(t 0 +0);

// `t 0 +1 -1`, likewise.
pub const BOTH_SIGNS: Gate = gate!(t 0 +1 -1);

// `f 0 1`.
pub const F01: Gate = gate!(f 0 1);

// `f 0 2`.
pub const F02: Gate = gate!(f 0 2);

// `f 1 2`.
pub const F12: Gate = gate!(f 1 2);

// `f 1 0`, whose lines are not in order.
pub const F10: Gate = gate!(f 1 0);
