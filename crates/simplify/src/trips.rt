// The ways of all states through a cascade and back.
ghost use Rattle.std.specs.Prelude.{◌≡◌, ℕ, ◌<◌, length, slice_index_or};
ghost use Rattle.simplify.specs.declared.round_trip.RoundTrip.{RoundTrip};

use crate::adder::{LINES, STATES};
use crate::round_trip::RoundTrip;
use gates::Gate;
use std::{array, io};

// The way of each state, and how many gates the cascade has.
#[derive(Clone, Copy)]
pub struct Trips {
    gates: usize,
    ways: [RoundTrip; STATES],
}

impl Trips {
    // The ways through the cascade `there` and then through the cascade `back`, of the states in order.
    pub fn new(there: &[Gate], back: &[Gate]) -> Trips
        ensures gates { result.gates ≡ length there.now }
        ensures starts { (i : ℕ) (other : RoundTrip) → i < 16 → (slice_index_or result.ways i other).start ≡ i }
    {
        Trips {
            gates: there.len(),
            ways: array::from_fn(|start| RoundTrip::new(there, back, start as u32)),
        }
    }

    // Prints a line for each way, each written by itself, and how many states came back.
    pub fn tell(&self, rt: &impl Print) -> io::Result<()> {
        for way in self.ways {
            println!(rt; "{way}")?;
        }
        let restored = self.ways.iter().filter(|way| way.is_restored()).count();
        println!(rt; "lines {LINES}")?;
        println!(rt; "gates {}", self.gates)?;
        println!(rt; "states run {}", self.ways.len())?;
        println!(rt; "states restored {restored}")
    }
}
