// The plain store: its gates in order, as records at the front of memory that the caller lends.
ghost use Rattle.std.specs.Prelude.{◌≡◌, ◌+◌, take, drop};
ghost use Rattle.stores.specs.Held.{plain_held};
ghost use Rattle.stores.specs.Memory.{made_lines, plain};
ghost use Rattle.stores.specs.MemoryFacts.{plain_bounded};
ghost use Rattle.stores.specs.Stores.{after, answer, insert_outcome, overwrite_outcome, remove_outcome};

use super::checks::{check_place, check_place_before, check_room, made_lines};
use super::{PlainStore, Store, StoreRefusal};
use gates::{Gate, GateKind, check_gate};
use std::marker::PhantomData;

// The most gates that a store can hold.
pub const MOST: usize = 4096;

impl<'a, K: GateKind> PlainStore<'a, K> {
    // An empty store of so many lines in the lent records, whatever they hold; of 1 line where that is not 1 to 32.
    pub fn new(records: &'a mut [Gate], lines: u8) -> PlainStore<'a, K>
        ensures holds { result.records.now ≡ records.old }
        ensures empty { plain_held result ≡ plain (made_lines lines) records.old 0 }
    {
        PlainStore {
            records,
            count: 0,
            lines: made_lines(lines),
            kind: PhantomData,
        }
    }

    // The records that hold the list.
    fn gates(&self) -> &[Gate]
        ensures { result.now ≡ take self.now.count self.now.records.now }
    {
        &self.records[..self.count]
    }
}

// Beside what every store promises: the records behind the list, and behind the place of a gate that comes in, stay as they are.
impl<K: GateKind> Store for PlainStore<'_, K> {
    type Kind = K;

    ghost means = { plain_held };

    ghost bounded = { λ s. plain_bounded s.lines s.records.now s.count s.some_line s.few_lines s.within s.few };

    fn lines(&self) -> u8 {
        self.lines
    }

    fn capacity(&self) -> usize {
        self.records.len().min(MOST)
    }

    fn count(&self) -> usize {
        self.count
    }

    fn read(&self, place: usize) -> Result<Gate, StoreRefusal> {
        self.gates()
            .get(place)
            .copied()
            .ok_or(StoreRefusal::NoSuchPlace)
    }

    fn overwrite(&mut self, place: usize, gate: Gate) -> Result<(), StoreRefusal>
        ensures answers { result ≡ answer (overwrite_outcome K.means (plain_held self.old) place gate) }
        ensures leaves { plain_held self.new ≡ after (plain_held self.old) (overwrite_outcome K.means (plain_held self.old) place gate) }
        ensures behind { drop self.old.count self.new.records.now ≡ drop self.old.count self.old.records.now }
    {
        check_place(place, self.count)?;
        check_gate::<K>(gate, self.lines)?;
        self.records[place] = gate;
        Ok(())
    }

    fn insert(&mut self, place: usize, gate: Gate) -> Result<(), StoreRefusal>
        ensures answers { result ≡ answer (insert_outcome K.means (plain_held self.old) place gate) }
        ensures leaves { plain_held self.new ≡ after (plain_held self.old) (insert_outcome K.means (plain_held self.old) place gate) }
        ensures behind { drop (self.old.count + 1) self.new.records.now ≡ drop (self.old.count + 1) self.old.records.now }
    {
        let count = self.count;
        check_place_before(place, count)?;
        check_gate::<K>(gate, self.lines)?;
        check_room(count, self.capacity())?;
        self.records.copy_within(place..count, place + 1);
        self.records[place] = gate;
        self.count = count + 1;
        Ok(())
    }

    fn remove(&mut self, place: usize) -> Result<Gate, StoreRefusal>
        ensures answers { result ≡ answer (remove_outcome (plain_held self.old) place) }
        ensures leaves { plain_held self.new ≡ after (plain_held self.old) (remove_outcome (plain_held self.old) place) }
        ensures behind { drop self.old.count self.new.records.now ≡ drop self.old.count self.old.records.now }
    {
        let count = self.count;
        let gate = self.read(place)?;
        self.records.copy_within(place + 1..count, place);
        self.count = count - 1;
        Ok(gate)
    }
}
