// The list of a store as a slice, and as text.
use crate::gate_text::ToffoliText;
use fixed_list::FixedList;
use gates::Gate;
use std::fmt;
use stores::{Store, StoreRefusal};

// How many gates a list has at most.
pub const MOST: usize = 8;

// The first gates of a store, at most 8.
#[derive(Clone, Copy)]
pub struct List(FixedList<Gate, MOST>);

impl List {
    // Reads the gates that a store shows.
    pub fn of<S: Store>(store: &S) -> Result<List, StoreRefusal> {
        let mut gates = FixedList::new(Gate::BLANK);
        // A store is read place by place: it need not have its gates in a row.
        for place in 0..store.count().min(MOST) {
            let _ = gates.push(store.read(place)?);
        }
        Ok(List(gates))
    }

    // The gates.
    pub fn as_slice(&self) -> &[Gate] {
        self.0.as_slice()
    }
}

// Puts the gates at the end of a store's list, in order.
pub fn append<S: Store>(store: &mut S, gates: &[Gate]) -> Result<(), StoreRefusal> {
    for gate in gates {
        store.insert(store.count(), *gate)?;
    }
    Ok(())
}

// A line for each gate.
impl fmt::Display for List {
    fn fmt<W: fmt::Write>(&self, f: &mut fmt::Formatter<W>) -> fmt::Result {
        for gate in self.as_slice() {
            writeln!(f, "{}", ToffoliText(*gate))?;
        }
        Ok(())
    }
}
