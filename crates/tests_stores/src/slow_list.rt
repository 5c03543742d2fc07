// A list of gates kept the simple way, with the rules of the calls written out again.
ghost use Rattle.std.specs.Prelude.{◌≤◌};
ghost use Rattle.std.specs.Iterator.{IsFinite};

use crate::kinds::*;
use fixed_list::FixedList;
use gates::{Gate, GateRefusal};
use std::iter;
use stores::StoreRefusal;

// A record that is no gate of either kind.
pub const JUNK: Gate = Gate {
    a: 77,
    b: 99,
    positive: 0xffff_ffff,
    negative: 0xffff_ffff,
};

// How many gates a list has at most, whatever its capacity.
const MOST: usize = 64;

// A gate that is not well formed for four lines is refused.
fn check_formed<K: TestKind>(gate: Gate) -> Result<(), GateRefusal> {
    if K::is_formed(gate) {
        Ok(())
    } else {
        Err(GateRefusal::NotWellFormed)
    }
}

// The gates of a list, and how many it can have.
#[derive(Clone, Copy)]
pub struct SlowList {
    list: FixedList<Gate, MOST>,
    pub capacity: usize,
}

impl SlowList {
    // An empty list of so many gates at most.
    pub fn new(capacity: usize) -> SlowList {
        SlowList {
            list: FixedList::new(JUNK),
            capacity,
        }
    }

    // The list of these gates, with the capacity of this one.
    fn listed<I: Iterator<Item = Gate> + Drop>(&self, gates: I) -> SlowList
        requires can { I.can_next gates }
        requires ends { IsFinite (I.remaining gates) }
    {
        SlowList {
            list: FixedList::collected(gates, JUNK),
            capacity: self.capacity,
        }
    }

    // The gates, in order.
    pub fn gates(&self) -> &[Gate] {
        self.list.as_slice()
    }

    // How many gates there are.
    pub fn count(&self) -> usize
        ensures { result ≤ 64 }
    {
        self.list.len()
    }

    // Overwriting a place: refused for the place, then for the gate.
    pub fn overwrite<K: TestKind>(&mut self, place: usize, gate: Gate) -> Result<(), StoreRefusal> {
        if place >= self.count() {
            return Err(StoreRefusal::NoSuchPlace);
        }
        check_formed::<K>(gate)?;
        let gates = self.gates().iter().copied();
        let behind = self.gates().iter().copied().skip(place + 1);
        *self = self.listed(gates.take(place).chain(iter::once(gate)).chain(behind));
        Ok(())
    }

    // Inserting before a place: refused for the place, then for the gate, then where the list is full.
    pub fn insert<K: TestKind>(&mut self, place: usize, gate: Gate) -> Result<(), StoreRefusal> {
        if place > self.count() {
            return Err(StoreRefusal::NoSuchPlace);
        }
        check_formed::<K>(gate)?;
        if self.count() >= self.capacity {
            return Err(StoreRefusal::Full);
        }
        let gates = self.gates().iter().copied();
        let behind = self.gates().iter().copied().skip(place);
        *self = self.listed(gates.take(place).chain(iter::once(gate)).chain(behind));
        Ok(())
    }

    // Removing a place: the gate, or refused for the place.
    pub fn remove(&mut self, place: usize) -> Result<Gate, StoreRefusal> {
        let gate = *self.gates().get(place).ok_or(StoreRefusal::NoSuchPlace)?;
        let gates = self.gates().iter().copied();
        let behind = self.gates().iter().copied().skip(place + 1);
        *self = self.listed(gates.take(place).chain(behind));
        Ok(gate)
    }

    // The list last to first; each gate of either kind is its own inverse.
    pub fn reversed(&self) -> SlowList {
        self.listed(self.gates().iter().rev().copied())
    }

    // The list with each gate on the lines that the table gives.
    pub fn moved<K: TestKind>(&self, table: Table) -> SlowList {
        self.listed(self.gates().iter().map(|gate| K::moved(*gate, table)))
    }

    // The list from one place to before another, which can grow as far as the whole list can.
    pub fn part(&self, from: usize, to: usize) -> SlowList {
        let part = self.listed(self.gates().iter().copied().take(to).skip(from));
        let others = self.count().saturating_sub(part.count());
        SlowList {
            capacity: self.capacity.saturating_sub(others),
            ..part
        }
    }

    // The list with another in the place of that part.
    pub fn with_part(&self, from: usize, to: usize, part: &SlowList) -> SlowList {
        let before = self.gates().iter().take(from);
        let behind = self.gates().iter().skip(to);
        self.listed(before.chain(part.gates()).chain(behind).copied())
    }
}
