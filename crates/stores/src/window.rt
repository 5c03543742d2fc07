// The window mount: a part of another store's list.
ghost use Rattle.std.specs.Prelude.{◌≡◌};
ghost use Rattle.stores.specs.MountFacts.{window_bounded};
ghost use Rattle.stores.specs.Mounts.{start_in, window, window_made, window_outcome};

use super::checks::{check_place, check_place_before, check_room};
use super::{Store, StoreRefusal};
use gates::{Gate, check_gate};

// Shows so many gates of the store below from a place on; it grows and shrinks with its list, and the gates outside it stay.
#[derive(Drop)]
pub struct Window<S> {
    below: S,
    start: usize,
    size: usize,
}

// Refuses a window from a place to another before it, or to one above the count.
pub fn check_window<S: Store>(below: &S, from: usize, to: usize) -> Result<(), StoreRefusal>
    ensures { result ≡ window_outcome (S.means below.now) from to }
{
    if from <= to && to <= below.count() {
        Ok(())
    } else {
        Err(StoreRefusal::NoSuchPlace)
    }
}

impl<S: Store> Window<S> {
    // The window on the places `from` to `to` - 1 of a store; on the whole list where the check refuses them.
    pub fn new(below: S, from: usize, to: usize) -> Window<S>
        ensures holds { result.below ≡ below }
        ensures shows { window result.start result.size (S.means result.below) ≡ window_made from to (S.means below) }
    {
        let count = below.count();
        let (start, size) = if from <= to && to <= count {
            (from, to - from)
        } else {
            (0, count)
        };
        Window { below, start, size }
    }

    // The store below, as it is now.
    pub fn into_below(self) -> S
        ensures { result ≡ self.below }
    {
        self.below
    }

    // The place below where the window begins.
    fn first(&self) -> usize
        ensures { result ≡ start_in (S.means self.now.below) self.now.start }
    {
        self.start.min(self.below.count())
    }
}

impl<S: Store> Store for Window<S> {
    type Kind = S::Kind;

    ghost means = { λ s. window s.start s.size (S.means s.below) };

    ghost bounded = { λ s. window_bounded s.start s.size (S.means s.below) (S.bounded s.below) };

    fn lines(&self) -> u8 {
        self.below.lines()
    }

    fn capacity(&self) -> usize {
        self.below.capacity() - (self.below.count() - self.count())
    }

    fn count(&self) -> usize {
        self.size.min(self.below.count() - self.first())
    }

    fn read(&self, place: usize) -> Result<Gate, StoreRefusal> {
        let size = self.count();
        check_place(place, size)?;
        self.below.read(self.first() + place)
    }

    fn overwrite(&mut self, place: usize, gate: Gate) -> Result<(), StoreRefusal> {
        check_place(place, self.count())?;
        check_gate::<S::Kind>(gate, self.below.lines())?;
        let first = self.first();
        self.below.overwrite(first + place, gate)
    }

    fn insert(&mut self, place: usize, gate: Gate) -> Result<(), StoreRefusal> {
        let size = self.count();
        check_place_before(place, size)?;
        check_gate::<S::Kind>(gate, self.below.lines())?;
        check_room(self.below.count(), self.below.capacity())?;
        let first = self.first();
        self.below.insert(first + place, gate)?;
        self.start = first;
        self.size = size + 1;
        Ok(())
    }

    fn remove(&mut self, place: usize) -> Result<Gate, StoreRefusal> {
        let size = self.count();
        check_place(place, size)?;
        let first = self.first();
        let gate = self.below.remove(first + place)?;
        self.start = first;
        self.size = size - 1;
        Ok(gate)
    }
}
