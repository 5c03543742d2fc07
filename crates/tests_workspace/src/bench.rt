// A workspace in a test.
use gates::{Gate, Toffoli};
use search::Earliest;
use std::process::Abort;
use stores::{Store, StoreRefusal};
use workspace::{PositionSet, Proposal, TemplateRefusal, Workspace};

// A workspace of Toffoli gates whose policy takes the earliest, and the handle by which a test ends; a refusal is told by its number.
// The program's `Shelving` prints each answer where this gives it back: what the two share is how a proposal is put together.
#[derive(Drop)]
pub struct Bench<'a, R, S> {
    rt: &'a R,
    pub workspace: Workspace<S, Earliest>,
}

impl<'a, R: Abort, S: Store<Kind = Toffoli>> Bench<'a, R, S> {
    // The workspace on a store.
    pub fn new(rt: &'a R, store: S) -> Bench<'a, R, S> {
        Bench {
            rt,
            workspace: Workspace::new(store, Earliest {}),
        }
    }

    // Shelves a template.
    pub fn shelve(&mut self, lines: u8, gates: &[Gate], groups: &[PositionSet]) -> Result<(), u8> {
        let proposal = Proposal {
            lines,
            gates,
            groups,
        };
        let outcome = self.workspace.shelve(&proposal);
        outcome.map_err(TemplateRefusal::number)
    }

    // Withdraws an entry.
    pub fn withdraw(&mut self, number: usize) -> Result<(), u8> {
        let outcome = self.workspace.withdraw(number);
        outcome.map_err(TemplateRefusal::number)
    }

    // Appends a gate.
    pub fn append(&mut self, gate: Gate) -> Result<(), u8> {
        let outcome = self.workspace.append(gate);
        outcome.map_err(StoreRefusal::number)
    }

    // The gate at a place.
    pub fn gate(&self, place: usize) -> Result<Gate, u8> {
        self.workspace.gate(place).map_err(StoreRefusal::number)
    }

    // Puts gates at the end of the list, and nothing is refused.
    pub fn append_all(&mut self, gates: &[Gate]) {
        for gate in gates {
            assert_eq!(self.rt; self.append(*gate), Ok(()));
        }
    }

    // The list is these gates.
    pub fn check_list(&self, gates: &[Gate]) {
        assert_eq!(self.rt; self.workspace.gate_count(), gates.len());
        for (place, gate) in gates.iter().enumerate() {
            assert_eq!(self.rt; self.gate(place), Ok(*gate), "place {place}");
        }
    }

    // The shelf has so many entries, each with the count 0, and none beyond.
    pub fn check_entries(&self, count: usize) {
        let workspace = &self.workspace;
        assert_eq!(self.rt; workspace.entry_count(), count);
        // Entries are asked for by number: a workspace lends no list.
        for entry in 0..count {
            assert_eq!(self.rt; workspace.replacements(entry), Ok(0), "{entry}");
        }
        let beyond = workspace.replacements(count);
        assert_eq!(self.rt; beyond.map_err(TemplateRefusal::number), Err(9));
    }
}
