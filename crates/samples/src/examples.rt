// The template of five gates that the examples use.
use super::Gate;
use crate::gate;

// The five gates, which restore every state.
pub const FIVE: [Gate; 5] = [
    gate!(t 0 +1),
    gate!(t 1),
    gate!(t 0 +1),
    gate!(t 1),
    gate!(t 0),
];

// Its groups, as sets of positions: {0, 2, 4} and {1, 3, 4}.
pub const FIVE_GROUPS: [u32; 2] = [0b10101, 0b11010];
