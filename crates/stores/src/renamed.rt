// The renamed mount: another store's gates, each through a line table.
ghost use Rattle.std.specs.Prelude.{◌≡◌};
ghost use Rattle.fixed_list.specs.Lists.{contents};
ghost use Rattle.stores.specs.MountFacts.{renamed_bounded};
ghost use Rattle.stores.specs.Mounts.{renamed_made, renamed_view, shown_gate, table_outcome};

use super::checks::{check_place, check_place_before};
use super::{Rearrangement, Store, StoreRefusal, is_rearrangement};
use gates::{Gate, GateKind, check_gate};

// Shows each gate of the store below on its new lines; what is written goes back to the old ones.
#[derive(Drop)]
pub struct Renamed<S> {
    below: S,
    table: Rearrangement,
}

// Refuses a line table that is no rearrangement of the store's lines.
pub fn check_table<S: Store>(below: &S, table: &[u8]) -> Result<(), StoreRefusal>
    ensures { result ≡ table_outcome (S.means below.now) table.now }
{
    if is_rearrangement(table, below.lines()) {
        Ok(())
    } else {
        Err(StoreRefusal::Lines)
    }
}

impl<S: Store> Renamed<S> {
    // The mount on a store; where the check refuses the table, it shows the list unaltered.
    pub fn new(below: S, table: &[u8]) -> Renamed<S>
        ensures holds { result.below ≡ below }
        ensures shows { renamed_view S.Kind.means (contents result.table.new) (S.means result.below) ≡ renamed_made S.Kind.means table.now (S.means below) }
    {
        let table = Rearrangement::new(table, below.lines());
        Renamed { below, table }
    }

    // The store below, as it is now.
    pub fn into_below(self) -> S
        ensures { result ≡ self.below }
    {
        self.below
    }

    // A gate on the new lines of a table, where the table is for as many lines as the store below has; else the gate itself.
    fn through(&self, table: &[u8], gate: Gate) -> Gate
        ensures { result ≡ shown_gate S.Kind.means table.now (S.means self.now.below).lines gate }
    {
        if table.len() == usize::from(self.below.lines()) {
            S::Kind::renamed(gate, table)
        } else {
            gate
        }
    }
}

impl<S: Store> Store for Renamed<S> {
    type Kind = S::Kind;

    ghost means = { λ s. renamed_view S.Kind.means (contents s.table.new) (S.means s.below) };

    ghost bounded = { λ s. renamed_bounded S.Kind.means (contents s.table.new) (S.means s.below) (S.bounded s.below) };

    fn lines(&self) -> u8 {
        self.below.lines()
    }

    fn capacity(&self) -> usize {
        self.below.capacity()
    }

    fn count(&self) -> usize {
        self.below.count()
    }

    fn read(&self, place: usize) -> Result<Gate, StoreRefusal> {
        let gate = self.below.read(place)?;
        Ok(self.through(self.table.new_lines(), gate))
    }

    fn overwrite(&mut self, place: usize, gate: Gate) -> Result<(), StoreRefusal> {
        check_place(place, self.below.count())?;
        check_gate::<S::Kind>(gate, self.below.lines())?;
        let written = self.through(self.table.old_lines(), gate);
        self.below.overwrite(place, written)
    }

    fn insert(&mut self, place: usize, gate: Gate) -> Result<(), StoreRefusal> {
        check_place_before(place, self.below.count())?;
        check_gate::<S::Kind>(gate, self.below.lines())?;
        let written = self.through(self.table.old_lines(), gate);
        self.below.insert(place, written)
    }

    fn remove(&mut self, place: usize) -> Result<Gate, StoreRefusal> {
        let gate = self.below.remove(place)?;
        Ok(self.through(self.table.new_lines(), gate))
    }
}
