// The exact test of a key: whether it is that of an occurrence.
ghost use Rattle.std.specs.Prelude.{◌≡◌, ◌<◌, ◌≤◌, List, length, slice_index};
ghost use Rattle.std.specs.List.{AllByRecursion};
ghost use Rattle.gates.specs.declared.gate.Gate.{Gate as GateMeaning};
ghost use Rattle.gates.specs.Lines.{width};
ghost use Rattle.search.specs.Keys.{keyed};
ghost use Rattle.workspace.specs.Conditions.{EntryMeaning};
ghost use Rattle.workspace.specs.Matching.{frame_at};
ghost use Rattle.workspace.specs.Naming.{occurrence_of};
ghost use Rattle.workspace.specs.OccurrenceTests.{occurs_test, rules_test};
ghost use Rattle.workspace.specs.Occurrences.{template_on};
ghost use Rattle.workspace.specs.Proposals.{template_of};
ghost use Rattle.workspace.specs.Shelves.{entries_of};
ghost use Rattle.workspace.specs.Templates.{MeetsRules};

use super::decoding::decode;
use super::extension::extend;
use super::framing::gates_at;
use super::moving::do_move_front;
use super::named::Named;
use super::shelf::Shelf;
use super::turning::is_turn;
use super::{Template, choice};
use gates::{Gate, GateKind};
use search::Key;

// Whether the occurrence that is named meets the rules: the template can be turned so, the places are right, and the gates there
// are the first of the turned and extended template and can be moved to the front.
fn meets_rules<K: GateKind>(frame: &[Gate], lines: u8, template: &Template, named: &Named) -> bool
    ensures { (gates : List GateMeaning) (shelf : List EntryMeaning) → frame.now ≡ frame_at gates named.now.first
        → named.now.number < length shelf → template_on shelf (occurrence_of named.now) ≡ template_of template.now
        → result ≡ rules_test K.means lines gates shelf (occurrence_of named.now) }
{
    if !is_turn::<K>(lines, template, named) {
        return false;
    }
    let distances = named.distances();
    if !choice::are_places_right(template.size(), frame.len(), &distances) {
        return false;
    }
    let chosen = gates_at(frame, &distances);
    let chosen = chosen.as_slice();
    let Ok(extended) = extend::<K>(chosen, lines, template, named) else {
        return false;
    };
    choice::are_first(chosen, &extended)
        && do_move_front::<K>(frame, choice::find_chosen(distances.as_slice()))
}

// Whether the key is that of an occurrence of a template on the shelf, in gates of which the frame has those from the key's first place on.
pub(crate) fn is_occurrence<K: GateKind>(
    frame: &[Gate],
    lines: u8,
    shelf: &Shelf,
    key: &Key,
) -> bool
    ensures { (gates : List GateMeaning) → frame.now ≡ frame_at gates (slice_index (keyed key.now) 0)
        → AllByRecursion (λ (e : EntryMeaning). MeetsRules K.means e.template) (entries_of shelf.now) → lines ≤ width
        → result ≡ occurs_test K.means lines gates (entries_of shelf.now) (keyed key.now) }
{
    let Some(template) = shelf.template_at(usize::from(key.at(1))) else {
        return false;
    };
    decode(template.lines(), key).is_some_and(|named| meets_rules::<K>(
        frame, lines, template, &named,
    ))
}
