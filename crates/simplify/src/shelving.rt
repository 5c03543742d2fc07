// Templates put on a shelf and taken off it.
use gates::{Fredkin, Gate, Toffoli};
use samples::{FIVE, FIVE_GROUPS, gate};
use search::Earliest;
use std::{fmt, io};
use stores::{PlainStore, Store};
use workspace::{PositionSet, Proposal, TemplateRefusal, Workspace};

// An inversion.
const INVERSION: Gate = gate!(t 0);

// Two exchanges.
const EXCHANGES: [Gate; 2] = [gate!(f 0 1); 2];

// What became of a call: the word for it where it is done, else why it is refused.
#[derive(Clone, Copy)]
struct Outcome(Result<&'static str, TemplateRefusal>);

// The word, or the refusal by number.
impl fmt::Display for Outcome {
    fn fmt<W: fmt::Write>(&self, f: &mut fmt::Formatter<W>) -> fmt::Result {
        match self.0 {
            Ok(done) => f.write_str(done),
            Err(refusal) => write!(f, "refused {}", refusal.number()),
        }
    }
}

// A workspace whose policy takes the earliest, and where it is told what becomes of its shelf.
#[derive(Drop)]
struct Shelving<'a, R, S> {
    rt: &'a R,
    workspace: Workspace<S, Earliest>,
}

impl<'a, R: Print, S: Store> Shelving<'a, R, S> {
    // The workspace on a store.
    fn new(rt: &'a R, store: S) -> Shelving<'a, R, S> {
        Shelving {
            rt,
            workspace: Workspace::new(store, Earliest {}),
        }
    }

    // Shelves a template, and prints what became of it.
    fn shelve(
        &mut self,
        title: &str,
        lines: u8,
        gates: &[Gate],
        groups: &[PositionSet],
    ) -> io::Result<()> {
        let proposal = Proposal {
            lines,
            gates,
            groups,
        };
        let answer = self.workspace.shelve(&proposal);
        let outcome = Outcome(answer.map(|()| "shelved"));
        println!(self.rt; "{title}: {outcome}")
    }

    // Withdraws an entry, and prints what became of it.
    fn withdraw(&mut self, number: usize) -> io::Result<()> {
        print!(self.rt; "withdraw {number}")?;
        let answer = self.workspace.withdraw(number);
        let outcome = Outcome(answer.map(|()| "done"));
        println!(self.rt; ": {outcome}")
    }

    // Prints each entry's number with its count, and how many there are.
    fn tell_entries(&self) -> io::Result<()> {
        let count = self.workspace.entry_count();
        // Entries are asked for by number: a workspace lends no list.
        for number in 0..count {
            if let Ok(replacements) = self.workspace.replacements(number) {
                println!(self.rt; "entry {number}: replacements {replacements}")?;
            }
        }
        println!(self.rt; "entries {count}")
    }
}

// A shelf of Toffoli templates: the pair, and the five gates with their groups; the five without the last, which do not
// restore, and four inversions, of which two groups leave one; withdraws the second, and asks for a number that is no longer there.
fn tell_toffoli<S: Store<Kind = Toffoli> + Drop>(rt: &impl Print, store: S) -> io::Result<()> {
    let mut shelf = Shelving::new(rt, store);
    shelf.shelve("pair", 1, &[INVERSION; 2], &[])?;
    shelf.shelve("five", 2, &FIVE, &FIVE_GROUPS)?;
    shelf.shelve("five without the last", 2, &FIVE[..4], &[])?;
    shelf.shelve("four inversions", 1, &[INVERSION; 4], &[0b11, 0b110])?;
    shelf.shelve("pair again", 1, &[INVERSION; 2], &[])?;
    shelf.tell_entries()?;
    shelf.withdraw(1)?;
    shelf.tell_entries()?;
    shelf.withdraw(2)
}

// A shelf of Fredkin templates: the two exchanges, and the pair, whose gates are no Fredkin gates.
fn tell_fredkin<S: Store<Kind = Fredkin> + Drop>(rt: &impl Print, store: S) -> io::Result<()> {
    let mut shelf = Shelving::new(rt, store);
    shelf.shelve("exchanges", 2, &EXCHANGES, &[])?;
    shelf.shelve("pair of another kind", 1, &[INVERSION; 2], &[])?;
    shelf.tell_entries()
}

// Shelves templates in a workspace of each kind, and prints what becomes of them.
pub fn tell_shelving(rt: &impl Print) -> io::Result<()> {
    let mut records = [INVERSION; 1];
    tell_toffoli::<PlainStore<Toffoli>>(rt, PlainStore::new(&mut records, 2))?;
    tell_fredkin::<PlainStore<Fredkin>>(rt, PlainStore::new(&mut records, 2))
}
