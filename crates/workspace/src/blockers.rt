// Which gates of a frame block which: those before a gate with which it does not interchange.
ghost use Rattle.std.specs.Prelude.{ℕ, ◌<◌, length, slice_index};
ghost use Rattle.workspace.specs.Starts.{IsSet, blocks};

use super::frame::REACH;
use super::numbers::distances_where;
use gates::{Gate, GateKind};
use std::array;

// The distances of the gates that block the one at this distance; none where there is no gate.
fn blockers_of<K: GateKind>(gates: &[Gate], distance: usize) -> u64
    ensures { distance < length gates.now → IsSet result (blocks K.means gates.now distance) }
{
    let Some(gate) = gates.get(distance) else {
        return 0;
    };
    distances_where(&gates[..distance], |before| !K::interchange(before, *gate))
}

// For each gate the distances of those that block it.
pub(crate) fn all_blockers<K: GateKind>(gates: &[Gate]) -> [u64; REACH]
    ensures { (d : ℕ) → d < REACH → d < length gates.now → IsSet (slice_index result d) (blocks K.means gates.now d) }
{
    array::from_fn(|distance| blockers_of::<K>(gates, distance))
}
