// A workspace edited between looks.
use crate::bench::Bench;
use crate::gate_list::*;
use gates::{Gate, Toffoli};
use samples::FIVE;
use std::process::Abort;
use stores::{PlainStore, Store};

// Three are shelved, the middle one is withdrawn, and the numbers close up.
#[test]
fn withdrawing(rt: HostRuntime) {
    let mut records = [T0; 1];
    let store: PlainStore<Toffoli> = PlainStore::new(&mut records, 2);
    let mut bench = Bench::new(&rt, store);
    bench.check_entries(0);
    assert_eq!(rt; bench.withdraw(0), Err(9));
    assert_eq!(rt; bench.shelve(1, &[T0, T0], &[]), Ok(()));
    assert_eq!(rt; bench.shelve(2, &FIVE, &[]), Ok(()));
    assert_eq!(rt; bench.shelve(2, &[T0, T1], &[]), Err(6));
    assert_eq!(rt; bench.shelve(1, &[T0; 4], &[]), Ok(()));
    bench.check_entries(3);
    assert_eq!(rt; bench.withdraw(3), Err(9));
    bench.check_entries(3);
    assert_eq!(rt; bench.withdraw(1), Ok(()));
    bench.check_entries(2);
    assert_eq!(rt; bench.withdraw(2), Err(9));
    assert_eq!(rt; bench.withdraw(1), Ok(()));
    assert_eq!(rt; bench.withdraw(0), Ok(()));
    bench.check_entries(0);
}

// A workspace whose shelf is filled with pairs.
fn filled<'a, R: Abort, S: Store<Kind = Toffoli>>(rt: &'a R, store: S) -> Bench<'a, R, S> {
    let mut bench = Bench::new(rt, store);
    for entry in 0..64usize {
        assert_eq!(rt; bench.shelve(1, &[T0, T0], &[]), Ok(()), "{entry}");
    }
    bench.check_entries(64);
    bench
}

// What a full shelf refuses: with 4, but only what breaks no rule.
const REFUSED: [(u8, &[Gate], u8); 5] = [
    (1, &[T0, T0], 4),
    (5, &[T0, T0], 1),
    (1, &[T0], 5),
    (1, &[T1, T1], 2),
    (1, &[T0; 3], 6),
];

// A full shelf refuses these; when one is withdrawn there is room for one.
#[test]
fn full_shelf(rt: HostRuntime) {
    let mut records = [T0; 1];
    let store: PlainStore<Toffoli> = PlainStore::new(&mut records, 1);
    let mut bench = filled(&rt, store);
    for (lines, gates, number) in REFUSED {
        assert_eq!(rt; bench.shelve(lines, gates, &[]), Err(number));
    }
    bench.check_entries(64);
    assert_eq!(rt; bench.withdraw(63), Ok(()));
    assert_eq!(rt; bench.shelve(2, &[T1, T1], &[]), Ok(()));
    assert_eq!(rt; bench.shelve(2, &[T1, T1], &[]), Err(4));
}

// On a full shelf, the refusals of groups come before 4, too.
#[test]
fn groups_on_full_shelf(rt: HostRuntime) {
    let mut records = [T0; 1];
    let store: PlainStore<Toffoli> = PlainStore::new(&mut records, 1);
    let mut bench = filled(&rt, store);
    for (group, number) in [(1, 7), (10, 4), (7, 8)] {
        assert_eq!(rt; bench.shelve(1, &[T0; 4], &[group]), Err(number), "{group}");
    }
    bench.check_entries(64);
}

// Gates are appended behind one another where there is room for two: 2 comes before 3, and a refusal leaves the list.
#[test]
fn appending(rt: HostRuntime) {
    let mut records = [T3; 2];
    let store: PlainStore<Toffoli> = PlainStore::new(&mut records, 2);
    let mut bench = Bench::new(&rt, store);
    assert_eq!(rt; bench.gate(0), Err(9));
    assert_eq!(rt; bench.append(T0_1), Ok(()));
    assert_eq!(rt; bench.append(T3), Err(2));
    bench.check_list(&[T0_1]);
    assert_eq!(rt; bench.append(T1), Ok(()));
    assert_eq!(rt; bench.append(OWN_CONTROL), Err(2));
    assert_eq!(rt; bench.append(T0), Err(3));
    bench.check_list(&[T0_1, T1]);
    assert_eq!(rt; bench.gate(2), Err(9));
    let (store, _) = bench.workspace.into_parts();
    assert_eq!(rt; store.count(), 2);
}
