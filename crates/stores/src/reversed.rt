// The reversed mount: another store's list last to first, each gate inverted.
ghost use Rattle.std.specs.Prelude.{◌≡◌};
ghost use Rattle.stores.specs.MountFacts.{reversed_bounded};
ghost use Rattle.stores.specs.Mounts.{reversed};

use super::checks::{check_place, check_place_before};
use super::{Store, StoreRefusal};
use gates::{Gate, GateKind, check_gate};

// Shows the store below backward; what it shows undoes what the store below does.
#[derive(Drop)]
pub struct Reversed<S> {
    below: S,
}

impl<S: Store> Reversed<S> {
    // The mount on a store.
    pub fn new(below: S) -> Reversed<S>
        ensures { result.below ≡ below }
    {
        Reversed { below }
    }

    // The store below, as it is now.
    pub fn into_below(self) -> S
        ensures { result ≡ self.below }
    {
        self.below
    }
}

impl<S: Store> Store for Reversed<S> {
    type Kind = S::Kind;

    ghost means = { λ s. reversed S.Kind.means (S.means s.below) };

    ghost bounded = { λ s. reversed_bounded S.Kind.means (S.means s.below) (S.bounded s.below) };

    fn lines(&self) -> u8 {
        self.below.lines()
    }

    fn capacity(&self) -> usize {
        self.below.capacity()
    }

    fn count(&self) -> usize {
        self.below.count()
    }

    fn read(&self, place: usize) -> Result<Gate, StoreRefusal> {
        let count = self.below.count();
        check_place(place, count)?;
        let gate = self.below.read(count - 1 - place)?;
        Ok(S::Kind::inverse(gate))
    }

    fn overwrite(&mut self, place: usize, gate: Gate) -> Result<(), StoreRefusal> {
        let count = self.below.count();
        check_place(place, count)?;
        check_gate::<S::Kind>(gate, self.below.lines())?;
        self.below
            .overwrite(count - 1 - place, S::Kind::inverse(gate))
    }

    fn insert(&mut self, place: usize, gate: Gate) -> Result<(), StoreRefusal> {
        let count = self.below.count();
        check_place_before(place, count)?;
        check_gate::<S::Kind>(gate, self.below.lines())?;
        self.below.insert(count - place, S::Kind::inverse(gate))
    }

    fn remove(&mut self, place: usize) -> Result<Gate, StoreRefusal> {
        let count = self.below.count();
        check_place(place, count)?;
        let gate = self.below.remove(count - 1 - place)?;
        Ok(S::Kind::inverse(gate))
    }
}
