// Cascades: lists of gates of one kind, run first to last.
ghost use Rattle.std.specs.Prelude.{◌≡◌, ℕ};
ghost use Rattle.gates.specs.Cascades.{CascadeLaws, Undoes, backward, run};
ghost use Rattle.gates.specs.Examples.{ExamplesHold};
ghost use Rattle.gates.specs.Lines.{bit};

use super::{Gate, GateKind, LineSet};

// The state that the cascade sends this one to: each gate of the list once, first to last.
// A plain loop over the records: here the time goes.
pub fn run_cascade<K: GateKind>(gates: &[Gate], state: LineSet) -> LineSet
    ensures { bit result ≡ run K.means gates.now (bit state) }
{
    let mut reached = state;
    for gate in gates {
        reached = K::run(*gate, reached);
    }
    reached
}

// Turns the cascade round: last to first, each gate inverted. What it now does undoes what it did.
pub fn invert_cascade<K: GateKind>(gates: &mut [Gate])
    ensures after { gates.new ≡ backward K.means gates.old }
    ensures undoes { Undoes K.means gates.old gates.new }
{
    gates.reverse();
    for gate in gates.iter_mut() {
        *gate = K::inverse(*gate);
    }
}

// The laws of cascades, which every kind has.
pub fn cascade_laws<K: GateKind>()
    ensures { CascadeLaws K.means }
{}

// The worked examples, which the definitions answer as the rules do.
pub fn worked_examples()
    ensures { ExamplesHold }
{}
