// The roles of lines in the gates of a frame.
ghost use Rattle.gates.specs.declared.gate.Gate.{Gate as GateRecord};
ghost use Rattle.gates.specs.Lines.{bit};
ghost use Rattle.std.specs.Bool.{beq};
ghost use Rattle.std.specs.Prelude.{ℕ, ◌<◌, ◌&&◌, List, length, nat_lt, slice_index_or};
ghost use Rattle.workspace.specs.Starts.{HasRoles, IsSet, at_distance, no_roles, same_role};

use super::numbers::distances_where;
use gates::{Gate, GateKind, WIDTH, sets};
use search::candidates;
use std::array;

// How many lines there are at most.
pub(crate) const LINES: usize = WIDTH as usize;

// All distances of a frame, and those of the gates in which a line has each role.
#[derive(Clone, Copy)]
pub(crate) struct RoleSets {
    pub(crate) all: u64,
    pub(crate) positive: u64,
    pub(crate) negative: u64,
    pub(crate) targets: u64,
}

// The numbers that are in the set just if that is wanted.
fn agreeing(set: u64, wanted: bool) -> u64
    ensures { IsSet result (λ i. beq (bit set i) wanted) }
{
    if wanted { set } else { !set }
}

impl RoleSets {
    // The distances at which the line of these sets has the roles that the other line has in the gate.
    pub(crate) fn matching<K: GateKind>(&self, gate: Gate, line: u8) -> u64
        ensures { (frame : List GateRecord) (x : ℕ) → HasRoles K.means frame x self.now
            → IsSet result (λ d. nat_lt d (length frame) && same_role K.means gate line (at_distance frame d) x) }
    {
        let positive = agreeing(self.positive, sets::has_line(gate.positive, line));
        let negative = agreeing(self.negative, sets::has_line(gate.negative, line));
        let targets = agreeing(self.targets, sets::has_line(K::targets(gate), line));
        self.all & (positive & (negative & targets))
    }
}

// The distances at which the line has each role.
fn roles_of<K: GateKind>(gates: &[Gate], line: u8) -> RoleSets
    ensures { HasRoles K.means gates.now line result }
{
    RoleSets {
        all: candidates::numbers_below(gates.len()),
        positive: distances_where(gates, |gate| sets::has_line(gate.positive, line)),
        negative: distances_where(gates, |gate| sets::has_line(gate.negative, line)),
        targets: distances_where(gates, |gate| sets::has_line(K::targets(gate), line)),
    }
}

// For each line the distances at which it has each role.
pub(crate) fn all_roles<K: GateKind>(gates: &[Gate]) -> [RoleSets; LINES]
    ensures { (x : ℕ) → x < WIDTH → HasRoles K.means gates.now x (slice_index_or result x no_roles) }
{
    array::from_fn(|line| roles_of::<K>(gates, line as u8))
}
