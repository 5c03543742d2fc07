// Piles of three mounts: how each is put on a store and taken off it, and what every mount in it has to show.
use crate::drive::*;
use crate::kinds::*;
use crate::slow_list::*;
use std::process::Abort;
use stores::{Renamed, Reversed, Store, Window};

// A line table, and the one that leads back.
const THERE: Table = [2, 0, 3, 1];

const BACK: Table = [1, 3, 0, 2];

// A pile of mounts; what it shows is told by the whole list that the store had when the calls began.
pub trait Pile<S: Store> {
    type Top: Store<Kind = S::Kind> + Drop;

    // The seeds of the calls on the whole pile, and of those on a pile put together anew for each.
    const SEEDS: (u32, u32);

    // What the pile shows at first.
    fn shown(whole: &SlowList) -> SlowList;

    // The pile on a store, when it shows this list.
    fn put_on(store: S, list: &SlowList) -> Self::Top;

    // Takes the mounts off and compares every list on the way; the store with its list.
    fn take_off(rt: &impl Abort, pile: Followed<Self::Top>, whole: &SlowList) -> Followed<S>;
}

// A window on a reversed mount on a renamed one.
pub struct WindowOnTop {}

impl<S: Store + Drop> Pile<S> for WindowOnTop
where
    S::Kind: TestKind,
{
    type Top = Window<Reversed<Renamed<S>>>;

    const SEEDS: (u32, u32) = (1, 4);

    fn shown(whole: &SlowList) -> SlowList {
        whole.moved::<S::Kind>(THERE).reversed().part(2, 6)
    }

    fn put_on(store: S, list: &SlowList) -> Self::Top {
        let end = list.count() + 2;
        Window::new(Reversed::new(Renamed::new(store, &THERE)), 2, end)
    }

    fn take_off(rt: &impl Abort, pile: Followed<Self::Top>, whole: &SlowList) -> Followed<S> {
        let list = whole.moved::<S::Kind>(THERE).reversed();
        let list = list.with_part(2, 6, &pile.list);
        let reversed = Followed::new(rt, pile.store.into_below(), list).store;
        let list = list.reversed();
        let renamed = Followed::new(rt, reversed.into_below(), list).store;
        Followed::new(rt, renamed.into_below(), list.moved::<S::Kind>(BACK))
    }
}

// A renamed mount on a window on a reversed one.
pub struct WindowBetween {}

impl<S: Store + Drop> Pile<S> for WindowBetween
where
    S::Kind: TestKind,
{
    type Top = Renamed<Window<Reversed<S>>>;

    const SEEDS: (u32, u32) = (2, 5);

    fn shown(whole: &SlowList) -> SlowList {
        whole.reversed().part(1, 5).moved::<S::Kind>(THERE)
    }

    fn put_on(store: S, list: &SlowList) -> Self::Top {
        let end = list.count() + 1;
        Renamed::new(Window::new(Reversed::new(store), 1, end), &THERE)
    }

    fn take_off(rt: &impl Abort, pile: Followed<Self::Top>, whole: &SlowList) -> Followed<S> {
        let part = pile.list.moved::<S::Kind>(BACK);
        let window = Followed::new(rt, pile.store.into_below(), part).store;
        let list = whole.reversed().with_part(1, 5, &part);
        let reversed = Followed::new(rt, window.into_below(), list).store;
        Followed::new(rt, reversed.into_below(), list.reversed())
    }
}

// A window on a reversed mount on a window.
pub struct WindowInWindow {}

impl<S: Store + Drop> Pile<S> for WindowInWindow
where
    S::Kind: TestKind,
{
    type Top = Window<Reversed<Window<S>>>;

    const SEEDS: (u32, u32) = (3, 6);

    fn shown(whole: &SlowList) -> SlowList {
        whole.part(1, 7).reversed().part(3, 3)
    }

    fn put_on(store: S, list: &SlowList) -> Self::Top {
        let inner_end = list.count() + 7;
        let end = list.count() + 3;
        Window::new(Reversed::new(Window::new(store, 1, inner_end)), 3, end)
    }

    fn take_off(rt: &impl Abort, pile: Followed<Self::Top>, whole: &SlowList) -> Followed<S> {
        let list = whole.part(1, 7).reversed().with_part(3, 3, &pile.list);
        let reversed = Followed::new(rt, pile.store.into_below(), list).store;
        let part = list.reversed();
        let window = Followed::new(rt, reversed.into_below(), part).store;
        Followed::new(rt, window.into_below(), whole.with_part(1, 7, &part))
    }
}
