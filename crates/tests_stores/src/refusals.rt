// The order of refusals, on each store and mount: 9, then 2, then 3.
use crate::drive::*;
use crate::slow_list::*;
use gates::{Gate, Toffoli};
use samples::gate;
use std::process::Abort;
use stores::{GapStore, PlainStore, Renamed, Reversed, Store, Window};

// `t 1 +0`, which is well formed for two lines.
const GOOD: Gate = gate!(t 1 +0);

// `t 1 +1`, whose control is its target.
const BAD: Gate = gate!(t 1 +1);

// Inserts where there is no such place, of a gate that is not well formed, and into a full list of so many gates.
fn check_inserts<S: Store>(rt: &impl Abort, store: &mut S, count: usize) {
    let beyond = count.saturating_add(1);
    assert_eq!(rt; store.count(), count);
    for (place, gate, number) in [
        (beyond, BAD, 9),
        (beyond, GOOD, 9),
        (count, BAD, 2),
        (0, BAD, 2),
        (count, GOOD, 3),
        (0, GOOD, 3),
    ] {
        assert_eq!(rt; numbered(store.insert(place, gate)), Err(number));
    }
    assert_eq!(rt; store.count(), count);
}

// The other calls where there is no such place, and with a gate that is not well formed.
fn check_others<S: Store>(rt: &impl Abort, store: &mut S, count: usize) {
    for (place, gate, number) in [(count, BAD, 9), (count, GOOD, 9), (0, BAD, 2)] {
        assert_eq!(rt; numbered(store.overwrite(place, gate)), Err(number));
    }
    assert_eq!(rt; numbered(store.remove(count)), Err(9));
    assert_eq!(rt; numbered(store.read(count)), Err(9));
    assert_eq!(rt; numbered(store.read(usize::MAX)), Err(9));
    assert_eq!(rt; store.count(), count);
}

// All calls that a full list of so many gates refuses; the store again.
fn check_refused<S: Store>(rt: &impl Abort, store: S, count: usize) -> S {
    let mut store = store;
    check_inserts(rt, &mut store, count);
    check_others(rt, &mut store, count);
    store
}

// A store of two lines with room for three gates, filled, and then each mount on it.
fn check_mounts<S: Store + Drop>(rt: &impl Abort, store: S) {
    let store = filled(rt, store, GOOD, 3);
    let reversed = Reversed::new(check_refused(rt, store, 3));
    let renamed = Renamed::new(check_refused(rt, reversed, 3), &[1, 0]);
    let window = Window::new(check_refused(rt, renamed, 3), 1, 2);
    drop(check_refused(rt, window, 1));
}

#[test]
fn order_of_refusals(rt: HostRuntime) {
    let mut records = [JUNK; 3];
    check_mounts::<PlainStore<Toffoli>>(&rt, PlainStore::new(&mut records, 2));
    check_mounts::<GapStore<Toffoli>>(&rt, GapStore::new(&mut records, 2));
}
