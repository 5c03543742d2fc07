// Toffoli gates: line `a` is the target, which is inverted exactly when all positive controls are 1 and all negative ones are 0.
ghost use Rattle.gates.specs.Toffoli.{toffoli};
ghost use Rattle.gates.specs.ToffoliLaws.{toffoli_laws};

use super::{Gate, GateKind, LineSet, Sign, WIDTH, sets};

// The kind of Toffoli gates; field `b` is not used.
#[derive(Clone, Copy, Debug)]
pub struct Toffoli {}

impl GateKind for Toffoli {
    ghost means = { toffoli };

    ghost lawful = { toffoli_laws };

    fn is_well_formed(gate: Gate, lines: u8) -> bool {
        gate.are_controls_well_formed(lines)
            && gate.a < lines
            && gate.b == 0
            && !gate.has_control(gate.a)
    }

    fn run(gate: Gate, state: LineSet) -> LineSet {
        if gate.a < WIDTH && gate.do_controls_hold(state) {
            state ^ (1 << gate.a)
        } else {
            state
        }
    }

    fn inverse(gate: Gate) -> Gate {
        gate
    }

    fn interchange(first: Gate, second: Gate) -> bool {
        !second.has_control(first.a) && !first.has_control(second.a)
    }

    fn renamed(gate: Gate, table: &[u8]) -> Gate {
        Gate {
            a: sets::new_line(table, gate.a),
            b: 0,
            ..gate.with_renamed_controls(table)
        }
    }

    fn flipped(gate: Gate, chosen: LineSet) -> Option<Gate> {
        Some(gate.with_flipped_controls(chosen))
    }

    fn controlled(gate: Gate, line: u8, sign: Sign) -> Gate {
        gate.with_control(line, sign)
    }

    fn targets(gate: Gate) -> LineSet {
        sets::with_line(0, gate.a)
    }
}
