// Making stores and mounts: the checks, and what is made where a check refuses.
use crate::drive::*;
use crate::slow_list::*;
use gates::{Gate, Toffoli};
use samples::gate;
use std::process::Abort;
use std::test::Fail;
use stores::{
    GapStore, PlainStore, Renamed, Store, Window, check_lines, check_table, check_window,
};

// `t 2 +0 -1`.
const GATE: Gate = gate!(t 2 +0 -1);

// `t 0 +1 -2`: the same gate with line 0 renamed to 1, 1 to 2 and 2 to 0.
const MOVED: Gate = gate!(t 0 +1 -2);

#[test]
fn line_counts(rt: HostRuntime) {
    for (lines, answer) in [
        (0, Err(1)),
        (1, Ok(())),
        (32, Ok(())),
        (33, Err(1)),
        (255, Err(1)),
    ] {
        assert_eq!(rt; numbered(check_lines(lines)), answer, "{lines} lines");
    }
}

// A store that was lent five records has so many lines, and no gate.
fn check_empty<S: Store + Drop>(rt: &impl Abort, store: S, lines: u8) {
    assert_eq!(rt; store.lines(), lines);
    assert_eq!(rt; store.count(), 0);
    assert_eq!(rt; store.capacity(), 5);
}

#[test]
fn made_stores(rt: HostRuntime) {
    let mut records = [JUNK; 5];
    for (lines, expected) in [(0, 1), (1, 1), (32, 32), (33, 1)] {
        check_empty::<PlainStore<Toffoli>>(&rt, PlainStore::new(&mut records, lines), expected);
        check_empty::<GapStore<Toffoli>>(&rt, GapStore::new(&mut records, lines), expected);
    }
}

// A table that is no rearrangement of three lines is refused, and a mount made with it shows the gate unaltered.
fn check_refused_table<S: Store + Drop>(rt: &impl Abort, store: S, table: &[u8]) -> S {
    assert_eq!(rt; numbered(check_table(&store, table)), Err(1));
    let mount = Renamed::new(store, table);
    assert_eq!(rt; numbered(mount.read(0)), Ok(GATE));
    mount.into_below()
}

// What is no rearrangement of three lines.
const NO_TABLES: [&[u8]; 5] = [&[], &[0, 1], &[0, 1, 2, 3], &[0, 1, 3], &[1, 2, 1]];

// Tables for an empty store of three lines.
fn check_tables<S: Store + Drop>(rt: &impl Abort, store: S) {
    let mut store = filled(rt, store, GATE, 1);
    for table in NO_TABLES {
        store = check_refused_table(rt, store, table);
    }
    assert_eq!(rt; numbered(check_table(&store, &[1, 2, 0])), Ok(()));
    assert_eq!(rt;
        numbered(Renamed::new(store, &[1, 2, 0]).read(0)),
        Ok(MOVED)
    );
}

#[test]
fn line_tables(rt: HostRuntime) {
    let mut records = [JUNK; 2];
    check_tables::<PlainStore<Toffoli>>(&rt, PlainStore::new(&mut records, 3));
}

// Windows on an empty store of three lines, when it has three gates.
fn check_windows<S: Store + Drop>(rt: &impl Abort, store: S) {
    let mut store = filled(rt, store, GATE, 3);
    for (from, to, answer, count) in [
        (0, 3, Ok(()), 3),
        (1, 3, Ok(()), 2),
        (3, 3, Ok(()), 0),
        (2, 1, Err(9), 3),
        (0, 4, Err(9), 3),
        (4, 4, Err(9), 3),
    ] {
        assert_eq!(rt; numbered(check_window(&store, from, to)), answer);
        let window = Window::new(store, from, to);
        assert_eq!(rt; window.count(), count, "{from} to {to}");
        store = window.into_below();
    }
    assert_eq!(rt; store.count(), 3);
}

#[test]
fn windows(rt: HostRuntime) {
    let mut records = [JUNK; 4];
    check_windows::<GapStore<Toffoli>>(&rt, GapStore::new(&mut records, 3));
}

// A store that is lent 4,100 records takes 4,096 gates.
fn check_most<S: Store + Drop>(rt: &impl Abort, store: S) {
    let mut store = store;
    assert_eq!(rt; store.capacity(), 4096);
    for place in 0..4096usize {
        assert_eq!(rt; numbered(store.insert(place, GATE)), Ok(()));
    }
    assert_eq!(rt; numbered(store.insert(0, GATE)), Err(3));
    assert_eq!(rt; store.count(), 4096);
}

#[test]
fn most_gates(rt: HostRuntime) -> Result<(), Fail> {
    let mut records = vec![in rt.alloc(); JUNK; 4100]?;
    check_most::<PlainStore<Toffoli>>(&rt, PlainStore::new(&mut records, 3));
    check_most::<GapStore<Toffoli>>(&rt, GapStore::new(&mut records, 3));
    Ok(())
}
