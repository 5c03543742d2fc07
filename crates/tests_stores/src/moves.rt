// How many records the gap store moves: those between its gap and the place of the edit.
use crate::drive::*;
use crate::slow_list::*;
use gates::{Gate, Toffoli};
use samples::gate;
use stores::{GapStore, Store};

// `t 2 +0`.
const GATE: Gate = gate!(t 2 +0);

#[test]
fn moved_records(rt: HostRuntime) {
    let mut records = [JUNK; 6];
    let mut store: GapStore<Toffoli> = GapStore::new(&mut records, 3);
    assert_eq!(rt; store.records_moved(), 0);
    for (place, answer, moved) in [
        (0, Ok(()), 0),
        (1, Ok(()), 0),
        (2, Ok(()), 0),
        (0, Ok(()), 3),
        (9, Err(9), 3),
    ] {
        assert_eq!(rt; numbered(store.insert(place, GATE)), answer, "at {place}");
        assert_eq!(rt; store.records_moved(), moved, "at {place}");
    }
    assert_eq!(rt; numbered(store.remove(2)), Ok(GATE));
    assert_eq!(rt; store.records_moved(), 1);
    assert_eq!(rt; numbered(store.insert(2, GATE)), Ok(()));
    assert_eq!(rt; store.records_moved(), 0);
}
