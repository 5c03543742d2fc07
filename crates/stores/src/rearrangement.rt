// Rearrangements of lines: tables in which each line stands once, with the table that leads back.
ghost use Rattle.std.specs.Prelude.{◌≡◌, true, [], length, if◌then◌else◌};
ghost use Rattle.std.specs.List.{list_all, range_with_len};
ghost use Rattle.fixed_list.specs.Lists.{contents};
ghost use Rattle.gates.specs.Lines.{bit};
ghost use Rattle.stores.specs.Mounts.{inverse_of, rearranges};

use fixed_list::FixedList;
use gates::{LineSet, WIDTH, sets};

// A rearrangement of lines: the new line of each line, and the old line of each. Of no lines where none is known.
// Two lists, since a kind renames by one table as a slice.
#[derive(Clone, Copy)]
pub struct Rearrangement {
    new: FixedList<u8, 32>,
    old: FixedList<u8, 32>,
    ghost sound: { rearranges (length (contents new)) (contents new) ≡ true },
    ghost inverse: { contents old ≡ inverse_of (length (contents new)) (contents new) },
}

// Whether the set has all lines below `lines`.
fn has_all_lines(set: LineSet, lines: u8) -> bool
    ensures { result ≡ list_all (bit set) (range_with_len 0 lines) }
{
    (0..lines).all(|line| sets::has_line(set, line))
}

// Whether the table is a rearrangement of so many lines.
// Asks twice, that no line stands twice and that each stands, so that neither rests on counting.
pub fn is_rearrangement(table: &[u8], lines: u8) -> bool
    ensures { result ≡ rearranges lines table.now }
{
    if lines > WIDTH || table.len() != usize::from(lines) {
        return false;
    }
    let mut seen: LineSet = 0;
    for line in table {
        if *line >= lines || sets::has_line(seen, *line) {
            return false;
        }
        seen = sets::with_line(seen, *line);
    }
    has_all_lines(seen, lines)
}

impl Rearrangement {
    // The rearrangement that a table is of so many lines; of no lines where it is none.
    pub fn new(table: &[u8], lines: u8) -> Rearrangement
        ensures on { length (contents result.new) ≡ (if rearranges lines table.now then lines else 0) }
        ensures value { contents result.new ≡ (if rearranges lines table.now then table.now else []) }
    {
        if !is_rearrangement(table, lines) {
            let none = FixedList::new(0);
            return Rearrangement {
                new: none,
                old: none,
            };
        }
        let new = FixedList::of(table, 0);
        // One pass, since no line stands twice.
        let mut places = [0u8; 32];
        for (place, line) in table.iter().enumerate() {
            places[usize::from(*line)] = place as u8;
        }
        let old = FixedList::of(&places[..table.len()], 0);
        Rearrangement { new, old }
    }

    // How many lines it rearranges.
    pub fn lines(&self) -> u8
        ensures { result ≡ length (contents self.entry.now.new) }
    {
        self.new.len() as u8
    }

    // The new line of each line.
    pub fn new_lines(&self) -> &[u8]
        ensures { result.now ≡ contents self.entry.now.new }
    {
        self.new.as_slice()
    }

    // The old line of each line.
    pub fn old_lines(&self) -> &[u8]
        ensures { result.now ≡ contents self.entry.now.old }
    {
        self.old.as_slice()
    }
}
