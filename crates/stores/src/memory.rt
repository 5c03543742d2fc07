// Stores in memory that the caller lends: what is kept of each.
ghost use Rattle.std.specs.Prelude.{◌+◌, ◌≤◌, length};
ghost use Rattle.gates.specs.declared.gate.TheConstants.{WIDTH};
ghost use Rattle.stores.specs.declared.plain.TheConstants.{MOST};

use gates::Gate;
use std::marker::PhantomData;

// A list of gates at the front of the lent records; the other records are free.
#[derive(Drop)]
pub struct PlainStore<'a, K> {
    pub(crate) records: &'a mut [Gate],
    // A count beside the slice, since the caller lends the memory and there is no heap.
    pub(crate) count: usize,
    pub(crate) lines: u8,
    pub(crate) kind: PhantomData<K>,
    ghost some_line: { 1 ≤ lines },
    ghost few_lines: { lines ≤ WIDTH },
    ghost within: { count ≤ length records.now },
    ghost few: { count ≤ MOST },
}

// A list of gates around a gap of free records, so that edits near one place move few records.
#[derive(Drop)]
pub struct GapStore<'a, K> {
    pub(crate) records: &'a mut [Gate],
    // Two counts beside the slice, since the caller lends the memory and there is no heap.
    pub(crate) front: usize,
    pub(crate) back: usize,
    pub(crate) lines: u8,
    pub(crate) moved: usize,
    pub(crate) kind: PhantomData<K>,
    ghost some_line: { 1 ≤ lines },
    ghost few_lines: { lines ≤ WIDTH },
    ghost within: { front + back ≤ length records.now },
    ghost few: { front + back ≤ MOST },
}
