// Fredkin gates: lines `a` and `b` are exchanged exactly when all positive controls are 1 and all negative ones are 0.
ghost use Rattle.std.specs.Prelude.{◌≡◌, ◌<◌};
ghost use Rattle.gates.specs.Fredkin.{clear_of, disjoint_pairs, fredkin, same_pair, swapped};
ghost use Rattle.gates.specs.Lines.{bit};
ghost use Rattle.gates.specs.FredkinLaws.{fredkin_laws};

use super::{Gate, GateKind, LineSet, Sign, WIDTH, sets};

// The kind of Fredkin gates, with a < b.
#[derive(Clone, Copy, Debug)]
pub struct Fredkin {}

// Whether no exchanged line of the first gate is a control of the second.
fn is_clear_of(first: Gate, second: Gate) -> bool
    ensures { result ≡ clear_of first second }
{
    !second.has_control(first.a) && !second.has_control(first.b)
}

// Whether the gates exchange the same two lines: two fields of four, which `==` would all ask.
fn have_same_pair(first: Gate, second: Gate) -> bool
    ensures { result ≡ same_pair first second }
{
    first.a == second.a && first.b == second.b
}

// Whether the gates exchange no line in common.
fn have_disjoint_pairs(first: Gate, second: Gate) -> bool
    ensures { result ≡ disjoint_pairs first second }
{
    first.a != second.a && first.a != second.b && first.b != second.a && first.b != second.b
}

// The state with the values of two lines exchanged.
fn swap_lines(state: LineSet, a: u8, b: u8) -> LineSet
    requires { (a < WIDTH) × (b < WIDTH) }
    ensures { bit result ≡ swapped a b (bit state) }
{
    if sets::has_line(state, a) == sets::has_line(state, b) {
        state
    } else {
        state ^ (1 << a) ^ (1 << b)
    }
}

impl GateKind for Fredkin {
    ghost means = { fredkin };

    ghost lawful = { fredkin_laws };

    fn is_well_formed(gate: Gate, lines: u8) -> bool {
        gate.are_controls_well_formed(lines)
            && gate.a < gate.b
            && gate.b < lines
            && is_clear_of(gate, gate)
    }

    fn run(gate: Gate, state: LineSet) -> LineSet {
        if gate.a < WIDTH && gate.b < WIDTH && gate.do_controls_hold(state) {
            swap_lines(state, gate.a, gate.b)
        } else {
            state
        }
    }

    fn inverse(gate: Gate) -> Gate {
        gate
    }

    fn interchange(first: Gate, second: Gate) -> bool {
        is_clear_of(first, second)
            && is_clear_of(second, first)
            && (have_same_pair(first, second) || have_disjoint_pairs(first, second))
    }

    fn renamed(gate: Gate, table: &[u8]) -> Gate {
        let a = sets::new_line(table, gate.a);
        let b = sets::new_line(table, gate.b);
        Gate {
            a: a.min(b),
            b: a.max(b),
            ..gate.with_renamed_controls(table)
        }
    }

    fn flipped(gate: Gate, chosen: LineSet) -> Option<Gate> {
        if sets::has_line(chosen, gate.a) == sets::has_line(chosen, gate.b) {
            Some(gate.with_flipped_controls(chosen))
        } else {
            None
        }
    }

    fn controlled(gate: Gate, line: u8, sign: Sign) -> Gate {
        gate.with_control(line, sign)
    }

    fn targets(gate: Gate) -> LineSet {
        sets::with_line(sets::with_line(0, gate.b), gate.a)
    }
}
