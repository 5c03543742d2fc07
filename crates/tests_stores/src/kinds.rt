// Slow rules of the two kinds on four lines, shared with nothing that is tested.
use gates::{Fredkin, Gate, GateKind, LineSet, Toffoli};

// A line table of four lines.
pub type Table = [u8; 4];

// What differs from kind to kind.
pub trait TestKind: GateKind {
    // The gate of a number: well formed for four lines, but for one in eight.
    fn gate_of(number: u32) -> Gate;

    // Whether the gate is well formed for four lines.
    fn is_formed(gate: Gate) -> bool;

    // The gate on the lines that the table gives.
    fn moved(gate: Gate, table: Table) -> Gate;
}

impl TestKind for Toffoli {
    fn gate_of(number: u32) -> Gate {
        let target = (number % 4) as u8;
        controlled(target, 0, weight(target), number / 4)
    }

    fn is_formed(gate: Gate) -> bool {
        gate.a < 4 && gate.b == 0 && is_part_once(gate, weight(gate.a))
    }

    fn moved(gate: Gate, table: Table) -> Gate {
        Gate {
            a: new_line(table, gate.a),
            b: 0,
            ..moved_controls(gate, table)
        }
    }
}

// The pairs of lines, in order.
const PAIRS: [(u8, u8); 6] = [(0, 1), (0, 2), (0, 3), (1, 2), (1, 3), (2, 3)];

impl TestKind for Fredkin {
    fn gate_of(number: u32) -> Gate {
        let (a, b) = PAIRS[(number % 6) as usize];
        controlled(a, b, weight(a) | weight(b), number / 6)
    }

    fn is_formed(gate: Gate) -> bool {
        gate.a < gate.b && gate.b < 4 && is_part_once(gate, weight(gate.a) | weight(gate.b))
    }

    fn moved(gate: Gate, table: Table) -> Gate {
        let one = new_line(table, gate.a);
        let other = new_line(table, gate.b);
        Gate {
            a: one.min(other),
            b: one.max(other),
            ..moved_controls(gate, table)
        }
    }
}

// The gate with these fields and with controls by a number; for one number in eight a target is a control too.
fn controlled(a: u8, b: u8, targets: LineSet, number: u32) -> Gate {
    let free = 15 & !targets;
    let positive = number / 8 % 16 & free;
    let negative = number / 128 % 16 & free & !positive;
    let own = if number % 8 == 0 { targets } else { 0 };
    Gate {
        a,
        b,
        positive: positive | own,
        negative,
    }
}

// Whether the controls are on four lines, on none with both signs, and on none of the targets.
fn is_part_once(gate: Gate, targets: LineSet) -> bool {
    gate.positive < 16
        && gate.negative < 16
        && gate.positive & gate.negative == 0
        && gate.positive & targets == 0
        && gate.negative & targets == 0
}

// The set of one line; of none from line 4 on.
fn weight(line: u8) -> LineSet {
    if line < 4 { 1 << line } else { 0 }
}

// The table's entry for a line; 0 from line 4 on.
fn new_line(table: Table, line: u8) -> u8 {
    table.get(usize::from(line)).copied().unwrap_or(0)
}

// The gate with its controls on the lines that the table gives, and its own lines as they are.
fn moved_controls(gate: Gate, table: Table) -> Gate {
    Gate {
        positive: moved_set(gate.positive, table),
        negative: moved_set(gate.negative, table),
        ..gate
    }
}

// The set of the new lines of the lines in a set.
fn moved_set(set: LineSet, table: Table) -> LineSet {
    (0..4u8)
        .filter(|line| set & weight(*line) != 0)
        .fold(0, |moved, line| moved | weight(new_line(table, line)))
}
