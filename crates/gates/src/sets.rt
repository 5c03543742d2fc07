// Sets of lines as numbers: line i is in the set where the bit of weight 2^i is 1. A line from `WIDTH` on is in no set.
ghost use Rattle.std.specs.Prelude.{◌≡◌, ◌^◌, nat_lt, slice_index};
ghost use Rattle.gates.specs.Controls.{apart, exchanged, renamed_set, with_member};
ghost use Rattle.gates.specs.Lines.{bit};

use super::{LineSet, WIDTH};

// Whether the line is in the set.
pub fn has_line(set: LineSet, line: u8) -> bool
    ensures { result ≡ bit set line }
{
    line < WIDTH && (set >> line) & 1 == 1
}

// Whether all lines of the set are below `lines`.
pub fn is_below(set: LineSet, lines: u8) -> bool
    ensures { result ≡ nat_lt set (2 ^ lines) }
{
    lines >= WIDTH || set >> lines == 0
}

// Whether the sets have no line in common.
pub fn are_apart(left: LineSet, right: LineSet) -> bool
    ensures { result ≡ apart left right }
{
    left & right == 0
}

// The set with the line.
pub fn with_line(set: LineSet, line: u8) -> LineSet
    ensures { result ≡ with_member line set }
{
    if line < WIDTH { set | (1 << line) } else { set }
}

// The lines of `set` that are not chosen, and the chosen lines of `other`.
pub fn exchange(chosen: LineSet, set: LineSet, other: LineSet) -> LineSet
    ensures { result ≡ exchanged chosen set other }
{
    (set & !chosen) | (other & chosen)
}

// The new line of a line: the table's entry, 0 where it has none.
pub fn new_line(table: &[u8], line: u8) -> u8
    ensures { result ≡ slice_index table.now line }
{
    table.get(usize::from(line)).copied().unwrap_or(0)
}

// The new lines of the set's lines.
pub fn rename(table: &[u8], set: LineSet) -> LineSet
    ensures { result ≡ renamed_set table.now set }
{
    let mut renamed: LineSet = 0;
    for (line, new) in (0..WIDTH).zip(table) {
        if has_line(set, line) {
            renamed = with_line(renamed, *new);
        }
    }
    renamed
}
