// The gates that a kind makes of a gate on three lines: renamed, flipped, and with one more control, over all states.
use crate::cases::*;
use crate::slow::SlowKind;
use crate::states::check_same;
use crate::values::Values;
use gates::{Fredkin, Gate, Sign, Toffoli};
use std::process::Abort;
use std::test::Fail;

// All six rearrangements of the gate's lines: the renamed gate does on the new lines what the gate did on the old, leaves line 3, and renamed back it is the gate again.
fn check_renamed<K: SlowKind>(rt: &impl Abort, gate: Gate) {
    for (there, back) in TABLES {
        let renamed = K::renamed(gate, &there);
        assert!(rt; K::is_formed(renamed, 3), "{gate:?} by {there:?}");
        assert_eq!(rt; K::renamed(renamed, &back), gate, "{gate:?} by {there:?}");
        check_same(
            rt,
            &(gate, there),
            |values| K::leads(renamed, values).through(there),
            |values| K::leads(gate, values.through(there)),
        );
    }
}

// All eight sets of lines to flip: there is a flipped gate exactly when the slow rule says so, and it does what the gate does between two inversions of the chosen lines.
fn check_flipped<K: SlowKind>(rt: &impl Abort, gate: Gate) {
    for chosen in 0..8u32 {
        let lines = Values::from(chosen);
        let flipped = K::flipped(gate, chosen);
        assert_eq!(rt;
            flipped.is_some(),
            K::has_flipped(gate, lines),
            "{gate:?} by {chosen}"
        );
        if let Some(flipped) = flipped {
            assert!(rt; K::is_formed(flipped, 3), "{gate:?}");
            check_same(
                rt,
                &(gate, chosen),
                |values| K::leads(flipped, values),
                |values| K::leads(gate, values.inverted(lines)).inverted(lines),
            );
        }
    }
}

// With one more control, the gate works where the line has the wanted value, and else does nothing.
fn check_controlled<K: SlowKind>(rt: &impl Abort, gate: Gate, line: u8, sign: Sign) {
    let wanted = sign == Sign::Positive;
    let controlled = K::controlled(gate, line, sign);
    assert!(rt; K::is_formed(controlled, 3), "{gate:?} on {line}");
    check_same(
        rt,
        &(gate, line),
        |values| K::leads(controlled, values),
        |values| if values.at(line) == wanted {
            K::leads(gate, values)
        } else {
            values
        },
    );
}

// Both signs of a control on each line that the gate does not use; how many such lines there are.
fn check_added_controls<K: SlowKind>(rt: &impl Abort, gate: Gate) -> usize {
    let is_unused = |line: &u8| K::parts(gate, *line) == 0;
    for line in (0..3u8).filter(is_unused) {
        check_controlled::<K>(rt, gate, line, Sign::Positive);
        check_controlled::<K>(rt, gate, line, Sign::Negative);
    }
    (0..3u8).filter(is_unused).count()
}

// One more control on each of the gates on three lines; in all so many lines are unused.
fn check_adding<K: SlowKind>(rt: &(impl Abort + AllocGlobal), count: usize) -> Result<(), Fail> {
    let gates = all_gates::<K>(rt.alloc(), 3)?;
    let unused = gates.iter().fold(0usize, |unused, gate| {
        unused.saturating_add(check_added_controls::<K>(rt, *gate))
    });
    assert_eq!(rt; unused, count);
    Ok(())
}

#[test]
fn renaming(rt: HostRuntime) -> Result<(), Fail> {
    check_each::<Toffoli, _, _>(&rt, 3, 3 * 9, |gate| check_renamed::<Toffoli>(&rt, gate))?;
    check_each::<Fredkin, _, _>(&rt, 3, 3 * 3, |gate| check_renamed::<Fredkin>(&rt, gate))
}

#[test]
fn flipping(rt: HostRuntime) -> Result<(), Fail> {
    check_each::<Toffoli, _, _>(&rt, 3, 3 * 9, |gate| check_flipped::<Toffoli>(&rt, gate))?;
    check_each::<Fredkin, _, _>(&rt, 3, 3 * 3, |gate| check_flipped::<Fredkin>(&rt, gate))
}

// A Toffoli gate: 3 targets, one of 2 other lines unused, 3 forms of the last. A Fredkin gate: 3 pairs, the last line unused.
#[test]
fn adding_controls(rt: HostRuntime) -> Result<(), Fail> {
    check_adding::<Toffoli>(&rt, 3 * 2 * 3)?;
    check_adding::<Fredkin>(&rt, 3)
}
