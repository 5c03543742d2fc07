// The gates and tables that the tests go through.
use crate::slow::SlowKind;
use gates::Gate;
use std::alloc::{AllocError, Global};
use std::process::Abort;
use std::test::Fail;

// How many records there are with `a` and `b` below 5 and sets of lines below 5.
pub const RECORDS: u32 = 25_600;

// The record of this number: `a` and `b` are its first digits, in base 5, then come the sets, in base 32.
pub fn record(number: u32) -> Gate {
    Gate {
        a: (number % 5) as u8,
        b: (number / 5 % 5) as u8,
        positive: number / 25 % 32,
        negative: number / 800 % 32,
    }
}

// All gates that are well formed for `lines` lines, at most 4.
pub fn all_gates<K: SlowKind>(heap: Global, lines: u8) -> Result<Vec<Gate>, AllocError> {
    (0..RECORDS)
        .map(record)
        .filter(|gate| K::is_formed(*gate, lines))
        .collect(heap)
}

// Checks all gates that are well formed for `lines` lines, at most 4, of which there are so many.
pub(crate) fn check_each<K: SlowKind, R: Abort + AllocGlobal, F: Fn(Gate)>(
    rt: &R,
    lines: u8,
    count: usize,
    check: F,
) -> Result<(), Fail>
    requires { F.IsAlwaysCallable check }
{
    let gates = all_gates::<K>(rt.alloc(), lines)?;
    for gate in gates.iter() {
        check(*gate);
    }
    assert_eq!(rt; gates.len(), count);
    Ok(())
}

// The rearrangements of three lines, each with the one that leads back.
pub const TABLES: [([u8; 3], [u8; 3]); 6] = [
    ([0, 1, 2], [0, 1, 2]),
    ([0, 2, 1], [0, 2, 1]),
    ([1, 0, 2], [1, 0, 2]),
    ([1, 2, 0], [2, 0, 1]),
    ([2, 0, 1], [1, 2, 0]),
    ([2, 1, 0], [2, 1, 0]),
];
