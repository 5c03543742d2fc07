// Whether chosen gates can be moved to the front, each over the gates before it that are not chosen.
ghost use Rattle.std.specs.Prelude.{◌≡◌, not, []};
ghost use Rattle.gates.specs.Cascades.{picked};
ghost use Rattle.gates.specs.Lines.{bit};
ghost use Rattle.workspace.specs.Occurrences.{moves_front, passes};

use super::positions::has_position;
use gates::{Gate, GateKind, LineSet};

// Whether the gate interchanges with each of those before it that is not chosen.
fn does_pass<K: GateKind>(before: &[Gate], chosen: LineSet, gate: Gate) -> bool
    ensures { result ≡ passes K.means (picked (λ i. not (bit chosen i)) before.now) gate }
{
    before.iter().enumerate().all(|(distance, other)| has_position(chosen, distance)
        || K::interchange(*other, gate))
}

// Whether each chosen gate interchanges with every gate before it that is not chosen.
pub(crate) fn do_move_front<K: GateKind>(gates: &[Gate], chosen: LineSet) -> bool
    ensures { result ≡ moves_front K.means (bit chosen) [] gates.now }
{
    gates.iter().enumerate().all(|(distance, gate)| !has_position(chosen, distance)
        || does_pass::<K>(&gates[..distance], chosen, *gate))
}
