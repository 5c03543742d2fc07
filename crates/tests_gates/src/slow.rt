// Slow rules: what the gates of a kind are and do, line by line, over the values of four lines.
use crate::values::Values;
use gates::{Fredkin, Gate, GateKind, Toffoli};

// What differs from kind to kind, and what follows from it: rules of their own, shared with nothing that is tested.
pub trait SlowKind: GateKind {
    // Whether the line is a target or an exchanged line of the gate.
    fn is_target(gate: Gate, line: u8) -> bool;

    // Whether the gate's own lines are below `lines` and in order, and a field that is not used is 0.
    fn are_fields_right(gate: Gate, lines: u8) -> bool;

    // What the gate does where its controls hold.
    fn act(gate: Gate, state: Values) -> Values;

    // Whether there is a gate that does what this one does between two inversions of the chosen lines.
    fn has_flipped(gate: Gate, chosen: Values) -> bool;

    // How many parts the line has in the gate: positive control, negative control, target.
    fn parts(gate: Gate, line: u8) -> u8 {
        u8::from(Values::from(gate.positive).at(line))
            + u8::from(Values::from(gate.negative).at(line))
            + u8::from(Self::is_target(gate, line))
    }

    // Whether the gate is well formed for `lines` lines, at most 4: its fields are right, and each line has at most one part in it, none from `lines` on.
    fn is_formed(gate: Gate, lines: u8) -> bool {
        gate.positive < 16
            && gate.negative < 16
            && Self::are_fields_right(gate, lines)
            && (0..4u8).all(|line| Self::parts(gate, line) <= u8::from(line < lines))
    }

    // The values that the gate leads to.
    fn leads(gate: Gate, state: Values) -> Values {
        if do_controls_hold(gate, state) {
            Self::act(gate, state)
        } else {
            state
        }
    }
}

// Whether all positive controls are 1 and all negative ones are 0.
fn do_controls_hold(gate: Gate, state: Values) -> bool {
    let positive = Values::from(gate.positive);
    let negative = Values::from(gate.negative);
    (0..4u8).all(|line| {
        let value = state.at(line);
        (value || !positive.at(line)) && !(value && negative.at(line))
    })
}

impl SlowKind for Toffoli {
    fn is_target(gate: Gate, line: u8) -> bool {
        gate.a == line
    }

    fn are_fields_right(gate: Gate, lines: u8) -> bool {
        gate.a < lines && gate.b == 0
    }

    fn act(gate: Gate, state: Values) -> Values {
        state.with(gate.a, !state.at(gate.a))
    }

    fn has_flipped(_gate: Gate, _chosen: Values) -> bool {
        true
    }
}

impl SlowKind for Fredkin {
    fn is_target(gate: Gate, line: u8) -> bool {
        gate.a == line || gate.b == line
    }

    fn are_fields_right(gate: Gate, lines: u8) -> bool {
        gate.a < gate.b && gate.b < lines
    }

    fn act(gate: Gate, state: Values) -> Values {
        state
            .with(gate.a, state.at(gate.b))
            .with(gate.b, state.at(gate.a))
    }

    fn has_flipped(gate: Gate, chosen: Values) -> bool {
        chosen.at(gate.a) == chosen.at(gate.b)
    }
}
