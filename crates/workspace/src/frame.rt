// The frame: the gates of a store from a place on that an occurrence which begins there can reach.
use fixed_list::FixedList;
use gates::Gate;

// How many gates an occurrence can reach over: its last place is at most 31 behind its first.
pub(crate) const REACH: usize = 32;

// The gates, in order.
pub(crate) type Frame = FixedList<Gate, REACH>;
