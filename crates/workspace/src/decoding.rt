// Keys read: the occurrence that a key names.
ghost use Rattle.std.specs.Prelude.{◌≡◌, ◌≤◌, length, if◌then◌else◌, Some, None, nat_lt};
ghost use Rattle.std.specs.Option.{option_map};
ghost use Rattle.fixed_list.specs.Lists.{contents};
ghost use Rattle.search.specs.Keys.{keyed};
ghost use Rattle.workspace.specs.Naming.{named_of, readable, spelled};
ghost use Rattle.workspace.specs.TemplateTests.{all_pass};

use super::named::{MOST_LATER, MOST_MAPPED, Named, Table};
use super::posed::Pose;
use fixed_list::FixedList;
use gates::LineSet;
use search::Key;

// The table that takes a template's lines to these; none where one is no line.
fn read_table(lines: &[u16]) -> Option<Table>
    requires { length lines.now ≤ MOST_MAPPED }
    ensures { option_map contents result ≡ (if all_pass (λ x. nat_lt x 256) lines.now then Some lines.now else None) }
{
    // A loop, since a number that is no line ends it.
    let mut table = FixedList::new(0);
    for line in lines {
        let _ = table.push(u8::try_from(*line).ok()?);
    }
    Some(table)
}

// The numbers as distances.
fn read_later(numbers: &[u16]) -> FixedList<usize, MOST_LATER>
    requires { length numbers.now ≤ MOST_LATER }
    ensures { contents result ≡ numbers.now }
{
    FixedList::collected(numbers.iter().map(|number| usize::from(*number)), 0)
}

// The occurrence that the key names, for a template with so many lines; none where no occurrence has such a key.
pub(crate) fn decode(lines: u8, key: &Key) -> Option<Named>
    ensures { named_of result ≡ (if readable lines (keyed key.now) then Some (spelled lines (keyed key.now)) else None) }
{
    let lines = usize::from(lines);
    // The third number is 8 less the number of places.
    let [first, number, share, back, rotation, flips, rest @ ..] = key.as_slice() else {
        return None;
    };
    if lines > MOST_MAPPED
        || lines > rest.len()
        || usize::from(*share) + rest.len() != MOST_LATER + lines
        || *back > 1
    {
        return None;
    }
    let (map, later) = rest.split_at(lines);
    Some(Named {
        first: usize::from(*first),
        number: usize::from(*number),
        // The direction is 0 or 1 in a key, by which it is ranked.
        pose: Pose {
            back: *back == 1,
            rotation: usize::from(*rotation),
            flips: LineSet::from(*flips),
        },
        table: read_table(map)?,
        later: read_later(later),
    })
}
