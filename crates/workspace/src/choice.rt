// The chosen gates of a frame, by their distances from the first place.
ghost use Rattle.std.specs.Prelude.{◌≡◌, ℕ, ◌<◌, length, take};
ghost use Rattle.fixed_list.specs.Lists.{contents};
ghost use Rattle.gates.specs.Lines.{bit};
ghost use Rattle.workspace.specs.Choices.{places_test};
ghost use Rattle.workspace.specs.Matching.{reach};
ghost use Rattle.workspace.specs.OccurrenceTests.{rising_test, same_gate, same_list};
ghost use Rattle.workspace.specs.Posing.{placed_of};
ghost use Rattle.workspace.specs.Turns.{gates_of};
ghost use Rattle.workspace.specs.TurnTests.{has_number_lem};

use super::named::Distances;
use super::posed::Posed;
use gates::{Gate, LineSet, sets};

// Whether the numbers rise strictly.
fn do_rise(numbers: &[usize]) -> bool
    ensures { result ≡ rising_test 0 numbers.now }
{
    numbers.is_sorted_by(|one, next| one < next)
}

// Whether more than half of so many gates are chosen and no more than those, and the distances rise and are in a frame of so many gates.
pub(crate) fn are_places_right(size: usize, reach: usize, distances: &Distances) -> bool
    ensures { result ≡ places_test size reach (contents distances.now) }
{
    let count = distances.len();
    let distances = distances.as_slice();
    let are_within = distances.iter().all(|distance| *distance < reach);
    size < 2 * count && count <= size && do_rise(distances) && are_within
}

// The distances as a set.
pub(crate) fn find_chosen(distances: &[usize]) -> LineSet
    ensures { (i : ℕ) → i < reach → bit result i ≡ has_number_lem distances.now i }
{
    let mut chosen = 0;
    for distance in distances {
        chosen = sets::with_line(chosen, (*distance).min(255) as u8);
    }
    chosen
}

// Whether the chosen gates are the first of the turned and extended template.
pub(crate) fn are_first(chosen: &[Gate], extended: &Posed) -> bool
    ensures { result ≡ same_list same_gate chosen.now (take (length chosen.now) (gates_of (placed_of (contents extended.now)))) }
{
    let gates = extended.map(Gate::BLANK, |member| member.gate);
    gates.as_slice().starts_with(chosen)
}
