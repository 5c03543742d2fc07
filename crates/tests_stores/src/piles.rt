// All piles over both stores, for both kinds: driven whole, and taken apart after each call, so that the gates outside every window are seen.
use crate::drive::*;
use crate::kinds::*;
use crate::pile::*;
use crate::slow_list::*;
use gates::{Fredkin, Toffoli};
use std::process::Abort;
use stores::{GapStore, PlainStore, Store};

// How many records are lent.
const RECORDS: usize = 12;

// All the calls of the pile's seed, and then every list below.
fn check_whole<S: Store + Drop, P: Pile<S>>(rt: &impl Abort, followed: Followed<S>) -> Followed<S>
where
    S::Kind: TestKind,
{
    let mut below = followed;
    below.refill(rt);
    let whole = below.list;
    let list = P::shown(&whole);
    let mut pile = Followed::new(rt, P::put_on(below.store, &list), list);
    pile.drive(rt, P::SEEDS.0);
    P::take_off(rt, pile, &whole)
}

// All the calls of another seed on the pile, put together anew for each, and every list below after each.
fn check_apart<S: Store + Drop, P: Pile<S>>(rt: &impl Abort, followed: Followed<S>) -> Followed<S>
where
    S::Kind: TestKind,
{
    let mut below = followed;
    below.refill(rt);
    let whole = below.list;
    let mut list = P::shown(&whole);
    let mut run = Run::new(P::SEEDS.1);
    for _ in 0..STEPS {
        let mut pile = Followed::new(rt, P::put_on(below.store, &list), list);
        pile.step(rt, &mut run);
        list = pile.list;
        below = P::take_off(rt, pile, &whole);
    }
    run.check_varied(rt);
    below
}

// All three piles on one store, one after the other, whole and then taken apart after each call.
fn check_piles<S: Store + Drop>(rt: &impl Abort, store: S)
where
    S::Kind: TestKind,
{
    let below = Followed::new(rt, store, SlowList::new(RECORDS));
    let below = check_whole::<S, WindowOnTop>(rt, below);
    let below = check_whole::<S, WindowBetween>(rt, below);
    let below = check_whole::<S, WindowInWindow>(rt, below);
    let below = check_apart::<S, WindowOnTop>(rt, below);
    let below = check_apart::<S, WindowBetween>(rt, below);
    let below = check_apart::<S, WindowInWindow>(rt, below);
    drop(below);
}

#[test]
fn toffoli_gates_in_a_plain_store(rt: HostRuntime) {
    let mut records = [JUNK; RECORDS];
    check_piles::<PlainStore<Toffoli>>(&rt, PlainStore::new(&mut records, 4));
}

#[test]
fn fredkin_gates_in_a_plain_store(rt: HostRuntime) {
    let mut records = [JUNK; RECORDS];
    check_piles::<PlainStore<Fredkin>>(&rt, PlainStore::new(&mut records, 4));
}

#[test]
fn toffoli_gates_in_a_gap_store(rt: HostRuntime) {
    let mut records = [JUNK; RECORDS];
    check_piles::<GapStore<Toffoli>>(&rt, GapStore::new(&mut records, 4));
}

#[test]
fn fredkin_gates_in_a_gap_store(rt: HostRuntime) {
    let mut records = [JUNK; RECORDS];
    check_piles::<GapStore<Fredkin>>(&rt, GapStore::new(&mut records, 4));
}
