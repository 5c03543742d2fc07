// Whether gates restore every state: tried on each state of their lines.
ghost use Rattle.std.specs.Prelude.{◌≡◌, ◌≤◌};
ghost use Rattle.gates.specs.Cascades.{picked, run};
ghost use Rattle.gates.specs.Lines.{bit};
ghost use Rattle.workspace.specs.declared.template.TheConstants.{MOST_LINES};
ghost use Rattle.workspace.specs.TemplateTests.{agree, restores_test};

use super::{PositionSet, positions};
use gates::{Gate, GateKind, LineSet};

// The state that the gates at the chosen positions, in order, send this one to.
fn run_chosen<K: GateKind>(gates: &[Gate], chosen: PositionSet, state: LineSet) -> LineSet
    ensures { bit result ≡ run K.means (picked (bit chosen) gates.now) (bit state) }
{
    // A list's gates in place, without copying out the chosen ones.
    let mut reached = state;
    for (position, gate) in gates.iter().enumerate() {
        if positions::has_position(chosen, position) {
            reached = K::run(*gate, reached);
        }
    }
    reached
}

// Whether the gates at the chosen positions, in order, restore this state.
fn is_restored<K: GateKind>(gates: &[Gate], chosen: PositionSet, state: LineSet) -> bool
    ensures { result ≡ agree (run K.means (picked (bit chosen) gates.now) (bit state)) (bit state) }
{
    run_chosen::<K>(gates, chosen, state) == state
}

// Whether they restore each state of so many lines.
pub(super) fn do_chosen_restore<K: GateKind>(gates: &[Gate], chosen: PositionSet, lines: u8) -> bool
    requires { lines ≤ MOST_LINES }
    ensures { result ≡ restores_test K.means lines (picked (bit chosen) gates.now) }
{
    (0..1u32 << lines).all(|state| is_restored::<K>(gates, chosen, state))
}
