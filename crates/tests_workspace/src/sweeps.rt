// Sweeping and settling: what is replaced, what that leaves, and what is reported.
use crate::bench::Bench;
use crate::gate_list::*;
use gates::{Gate, Toffoli};
use samples::{FIVE, FIVE_GROUPS};
use std::process::Abort;
use stores::{GapStore, PlainStore, Store};
use workspace::{Ending, Replacement, SettleRefusal, Settling};

// `t 0 +1 +2; t 1 -3; t 0 +1 +2`.
const LONG: [Gate; 3] = [T0_1_2, T1_NOT_3, T0_1_2];

// What settling answers.
fn settling(ending: Ending, replacements: usize, saved: usize) -> Result<Settling, SettleRefusal> {
    Ok(Settling {
        ending,
        replacements,
        saved,
    })
}

// Three gates become two; then nothing occurs, and a budget of 0 tells so.
fn check_five<S: Store<Kind = Toffoli> + Drop>(rt: &impl Abort, store: S) {
    let mut bench = Bench::new(rt, store);
    assert_eq!(rt; bench.workspace.settle(0), settling(Ending::Settled, 0, 0));
    bench.append_all(&LONG);
    assert_eq!(rt; bench.workspace.settle(0), settling(Ending::Settled, 0, 0));
    assert_eq!(rt; bench.shelve(2, &FIVE, &FIVE_GROUPS), Ok(()));
    assert!(rt; bench.workspace.settle(4097).is_err());
    assert_eq!(rt; bench.workspace.settle(0), settling(Ending::Spent, 0, 0));
    bench.check_list(&LONG);
    assert_eq!(rt; bench.workspace.settle(1), settling(Ending::Settled, 1, 1));
    bench.check_list(&[T0_2_NOT_3, T1_NOT_3]);
    assert_eq!(rt; bench.workspace.replacements(0), Ok(1));
    assert_eq!(rt; bench.workspace.sweep(), None);
}

#[test]
fn five_gates(rt: HostRuntime) {
    let mut records = [T0; 8];
    check_five::<PlainStore<Toffoli>>(&rt, PlainStore::new(&mut records, 4));
    check_five::<GapStore<Toffoli>>(&rt, GapStore::new(&mut records, 4));
}

// With `t 0; t 0` shelved, equal gates so far apart, and gates between that they may pass: whether a sweep replaces them.
fn check_far<S: Store<Kind = Toffoli> + Drop>(
    rt: &impl Abort,
    store: S,
    between: usize,
    expected: Option<Replacement>,
) {
    let mut bench = Bench::new(rt, store);
    assert_eq!(rt; bench.shelve(1, &[T0, T0], &[]), Ok(()));
    assert_eq!(rt; bench.append(T0), Ok(()));
    for gate in (0..between).map(apart) {
        assert_eq!(rt; bench.append(gate), Ok(()));
    }
    assert_eq!(rt; bench.append(T0), Ok(()));
    assert_eq!(rt; bench.workspace.sweep(), expected);
}

// A gate on line 1 alone with controls on some of lines 2 to 6: no two of the first 32 are equal.
fn apart(place: usize) -> Gate {
    Gate {
        positive: ((place % 32) as u32) << 2,
        ..T1
    }
}

// At places 0 and 31 they are replaced, at 0 and 32 they are too far apart.
#[test]
fn far_apart(rt: HostRuntime) {
    let first = Replacement {
        template: 0,
        place: 0,
        saved: 2,
    };
    let mut records = [T0; 40];
    check_far::<PlainStore<Toffoli>>(&rt, PlainStore::new(&mut records, 8), 30, Some(first));
    check_far::<PlainStore<Toffoli>>(&rt, PlainStore::new(&mut records, 8), 31, None);
}
