// Pairs of gates on four lines, over all states: two in a row as a cascade, and those that interchange in either order.
use crate::cases::*;
use crate::slow::SlowKind;
use crate::states::check_same;
use crate::values::Values;
use gates::{Fredkin, Gate, LineSet, Toffoli, invert_cascade, run_cascade};
use std::process::Abort;
use std::test::Fail;

// The cascade of the two gates runs the first, then the second; turned round, it leads back to each state.
fn check_cascade<K: SlowKind>(rt: &impl Abort, first: Gate, second: Gate) {
    let there = [first, second];
    let mut back = there;
    invert_cascade::<K>(&mut back);
    for state in 0..16u32 {
        let reached = run_cascade::<K>(&there, state);
        let expected = K::leads(second, K::leads(first, Values::from(state)));
        assert_eq!(rt; reached, LineSet::from(expected), "{state}");
        assert_eq!(rt; run_cascade::<K>(&back, reached), state);
    }
}

// One gate with each of the gates; how many it interchanges with, which lead to one state in both orders.
fn check_partners<K: SlowKind>(rt: &impl Abort, first: Gate, gates: &[Gate]) -> usize {
    let mut partners = 0usize;
    for second in gates.iter().copied() {
        check_cascade::<K>(rt, first, second);
        if K::interchange(first, second) {
            check_same(
                rt,
                &(first, second),
                |values| K::leads(second, K::leads(first, values)),
                |values| K::leads(first, K::leads(second, values)),
            );
            partners = partners.saturating_add(1);
        }
    }
    partners
}

// All pairs of gates on four lines, of which so many interchange.
fn check_pairs<K: SlowKind>(rt: &(impl Abort + AllocGlobal), count: usize) -> Result<(), Fail> {
    let gates = all_gates::<K>(rt.alloc(), 4)?;
    let free = gates.iter().fold(0usize, |free, first| {
        free.saturating_add(check_partners::<K>(rt, *first, &gates))
    });
    assert_eq!(rt; free, count);
    Ok(())
}

// One target: 4 of them, 27 forms of the other lines in each gate. Two targets: 12 in order, 9 forms of the two other lines in each.
// One pair: 6 of them, 9 forms of the two other lines in each gate. Two pairs: 6 in order, which leave no line for a control.
#[test]
fn pairs_of_gates(rt: HostRuntime) -> Result<(), Fail> {
    check_pairs::<Toffoli>(&rt, 4 * 27 * 27 + 12 * 9 * 9)?;
    check_pairs::<Fredkin>(&rt, 6 * 9 * 9 + 6)
}
