// Runs a full adder over every state of its lines and back again, edits it through a pile of mounts, shelves templates, and prints what it saw.
#![tactic(auto)]

mod adder;
mod failure;
mod gate_text;
mod list;
mod round_trip;
mod shelving;
mod trips;

use adder::{ADDER, EXTRA, LINES, TABLE};
use failure::Failure;
use gates::{Gate, Toffoli, invert_cascade};
use list::{List, MOST, append};
use stores::{GapStore, Renamed, Reversed, Store, Window, check_lines, check_table, check_window};
use trips::Trips;

// Prints the list of a store, and how many gates it has of how many.
fn tell_list<S: Store>(rt: &impl Print, title: &str, store: &S) -> Result<(), Failure> {
    let count = store.count();
    let capacity = store.capacity();
    println!(rt; "{title}: gates {count} of {capacity}")?;
    print!(rt; "{}", List::of(store)?)?;
    Ok(())
}

// Puts a gate into the middle of a list and takes another out, through a window; gives the store back.
fn tell_edits<S: Store + Drop>(rt: &impl Print, store: S) -> Result<S, Failure> {
    check_window(&store, 1, 3)?;
    let mut window = Window::new(store, 1, 3);
    tell_list(rt, "window", &window)?;
    window.insert(1, EXTRA)?;
    tell_list(rt, "window after an insert", &window)?;
    window.remove(0)?;
    tell_list(rt, "window after a removal", &window)?;
    Ok(window.into_below())
}

// The adder in an empty store, reversed, renamed and edited.
fn tell_mounts<S: Store<Kind = Toffoli> + Drop>(rt: &impl Print, store: S) -> Result<(), Failure> {
    let mut store = store;
    append(&mut store, &ADDER)?;
    tell_list(rt, "adder", &store)?;
    let reversed = Reversed::new(store);
    tell_list(rt, "reversed", &reversed)?;
    let back = List::of(&reversed)?;
    Trips::new(&ADDER, back.as_slice()).tell(rt)?;
    check_table(&reversed, &TABLE)?;
    let pile = Renamed::new(reversed, &TABLE);
    tell_list(rt, "reversed and renamed", &pile)?;
    let there = List::of(&pile)?;
    let pile = Reversed::new(pile);
    let back = List::of(&pile)?;
    Trips::new(there.as_slice(), back.as_slice()).tell(rt)?;
    let pile = tell_edits(rt, pile.into_below())?;
    tell_list(rt, "adder after the edits", &pile.into_below().into_below())
}

fn main(rt: HostRuntime) -> Result<(), Failure> {
    let mut back = ADDER;
    invert_cascade::<Toffoli>(&mut back);
    Trips::new(&ADDER, &back).tell(&rt)?;
    check_lines(LINES)?;
    let mut records = [Gate::BLANK; MOST];
    let store: GapStore<Toffoli> = GapStore::new(&mut records, LINES);
    tell_mounts(&rt, store)?;
    shelving::tell_shelving(&rt)?;
    Ok(())
}
