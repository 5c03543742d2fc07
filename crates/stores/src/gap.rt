// The gap store: the first gates at the front of memory that the caller lends, the others at its back, free records between.
ghost use Rattle.std.specs.Prelude.{◌≡◌, ◌+◌, ◌<◌, ◌≤◌, length};
ghost use Rattle.stores.specs.Held.{gap_held};
ghost use Rattle.stores.specs.Memory.{GapMoved, apart, gap, made_lines, moved_by, record_of};
ghost use Rattle.stores.specs.MemoryFacts.{gap_bounded};
ghost use Rattle.stores.specs.Stores.{after, answer, insert_outcome, remove_outcome};

use super::checks::{check_place, check_place_before, check_room, made_lines};
use super::{GapStore, MOST, Store, StoreRefusal};
use gates::{Gate, GateKind, check_gate};
use std::marker::PhantomData;

impl<'a, K: GateKind> GapStore<'a, K> {
    // An empty store of so many lines in the lent records, whatever they hold; of 1 line where that is not 1 to 32.
    pub fn new(records: &'a mut [Gate], lines: u8) -> GapStore<'a, K>
        ensures holds { result.records.now ≡ records.old }
        ensures unmoved { result.moved ≡ 0 }
        ensures empty { gap_held result ≡ gap (made_lines lines) records.old 0 0 }
    {
        GapStore {
            records,
            front: 0,
            back: 0,
            lines: made_lines(lines),
            moved: 0,
            kind: PhantomData,
        }
    }

    // How many records were moved by the last insert or removal that was not refused.
    pub fn records_moved(&self) -> usize
        ensures value { result ≡ self.now.moved }
    {
        self.moved // 0 until the first
    }

    // The record that holds the gate at a place of the list.
    fn record_of(&self, place: usize) -> usize
        requires { place < self.now.front + self.now.back }
        ensures within { result < length self.now.records.now }
        ensures value { result ≡ record_of (length self.now.records.now) self.now.front self.now.back place }
    {
        if place < self.front {
            place
        } else {
            place + (self.records.len() - (self.front + self.back))
        }
    }

    // Moves the gap to a place of the list; answers how many records moved, each once.
    fn move_gap(&mut self, place: usize) -> usize
        requires { place ≤ self.old.front + self.old.back }
        ensures keeps { GapMoved self.old.lines self.old.records.now self.old.front self.old.back self.new.lines self.new.records.now self.new.front self.new.back }
        ensures front { self.new.front ≡ place }
        ensures moved { result ≡ apart self.old.front place }
    {
        let count = self.front + self.back;
        let free = self.records.len() - count;
        let (moving, to) = if place < self.front {
            (place..self.front, place + free)
        } else {
            (self.front + free..place + free, self.front)
        };
        let moved = moving.len();
        self.records.copy_within(moving, to);
        self.front = place;
        self.back = count - place;
        moved
    }
}

// Beside what every store promises: the number of moved records that an insert or a removal keeps is that of the gates between the gap and its place.
impl<K: GateKind> Store for GapStore<'_, K> {
    type Kind = K;

    ghost means = { gap_held };

    ghost bounded = { λ s. gap_bounded s.lines s.records.now s.front s.back s.some_line s.few_lines s.within s.few };

    fn lines(&self) -> u8 {
        self.lines
    }

    fn capacity(&self) -> usize {
        self.records.len().min(MOST)
    }

    fn count(&self) -> usize {
        self.front + self.back
    }

    fn read(&self, place: usize) -> Result<Gate, StoreRefusal> {
        check_place(place, self.count())?;
        let record = self.record_of(place);
        Ok(self.records[record])
    }

    fn overwrite(&mut self, place: usize, gate: Gate) -> Result<(), StoreRefusal> {
        check_place(place, self.count())?;
        check_gate::<K>(gate, self.lines)?;
        let record = self.record_of(place);
        self.records[record] = gate;
        Ok(())
    }

    fn insert(&mut self, place: usize, gate: Gate) -> Result<(), StoreRefusal>
        ensures answers { result ≡ answer (insert_outcome K.means (gap_held self.old) place gate) }
        ensures leaves { gap_held self.new ≡ after (gap_held self.old) (insert_outcome K.means (gap_held self.old) place gate) }
        ensures moves { self.new.moved ≡ moved_by result (apart self.old.front place) self.old.moved }
    {
        let count = self.count();
        check_place_before(place, count)?;
        check_gate::<K>(gate, self.lines)?;
        check_room(count, self.capacity())?;
        self.moved = self.move_gap(place);
        self.records[place] = gate;
        self.front = place + 1;
        Ok(())
    }

    fn remove(&mut self, place: usize) -> Result<Gate, StoreRefusal>
        ensures answers { result ≡ answer (remove_outcome (gap_held self.old) place) }
        ensures leaves { gap_held self.new ≡ after (gap_held self.old) (remove_outcome (gap_held self.old) place) }
        ensures moves { self.new.moved ≡ moved_by result (apart self.old.front place) self.old.moved }
    {
        let gate = self.read(place)?;
        self.moved = self.move_gap(place);
        self.records[self.records.len() - self.back] = Gate::BLANK;
        self.back -= 1;
        Ok(gate)
    }
}
