// The numbers that can come next in a key: where its template is not posed yet, in its map of lines, and behind that map.
ghost use Rattle.std.specs.Prelude.{◌≡◌, ℕ, ◌-◌, ◌*◌, ◌^◌, ◌≤◌, not, ◌&&◌, ltb, List, length, drop, nat_le, nat_lt};
ghost use Rattle.fixed_list.specs.Lists.{contents};
ghost use Rattle.gates.specs.declared.gate.Gate.{Gate};
ghost use Rattle.gates.specs.Lines.{bit};
ghost use Rattle.search.specs.Keys.{keyed};
ghost use Rattle.workspace.specs.Notes.{all_stand, can_stand, image_at, possible, some_of};
ghost use Rattle.workspace.specs.Proposals.{template_of};
ghost use Rattle.workspace.specs.Starts.{HasRoles, IsSet, movable};
ghost use Rattle.workspace.specs.TurnTests.{has_number_lem};

use super::Template;
use super::line::Line;
use super::named::BEFORE_MAP;
use super::notes::{Image, Note};
use super::numbers::numbers_where;
use super::role::RoleSets;
use super::start::Start;
use super::template::{MOST_GATES, MOST_LINES};
use gates::{GateKind, WIDTH};
use search::{Key, candidates};

// The numbers 8 - k of those k that are more than half of the size and no more than the size.
fn next_shares(size: usize) -> u64
    ensures { IsSet result (λ v. nat_lt v MOST_GATES && (nat_lt size (2 * (MOST_GATES - v)) && nat_le (MOST_GATES - v) size)) }
{
    numbers_where(MOST_GATES, |share| {
        size < 2 * (MOST_GATES - share) && MOST_GATES - share <= size
    })
}

// The sets of lines, as numbers, that can be flipped of so many lines.
fn next_flips(lines: u8) -> u64
    ensures { lines ≤ MOST_LINES → IsSet result (λ v. ltb v (2 ^ lines)) }
{
    if lines <= MOST_LINES {
        candidates::numbers_below(1_usize << lines)
    } else {
        0
    }
}

// The numbers that can come next before the template is posed, by how many there are already.
// A number of a key is known by its place, so the count says which comes next.
pub(crate) fn next_pose(template: &Template, level: usize) -> u64
    ensures shares { level ≡ 2
        → IsSet result (λ v. nat_lt v MOST_GATES && (nat_lt (length (template_of template.now).gates) (2 * (MOST_GATES - v)) && nat_le (MOST_GATES - v) (length (template_of template.now).gates))) }
    ensures directions { level ≡ 3 → IsSet result (λ v. ltb v 2) }
    ensures rotations { level ≡ 4 → IsSet result (λ v. ltb v (length (template_of template.now).gates)) }
    ensures flips { level ≡ 5 → (template_of template.now).lines ≤ MOST_LINES → IsSet result (λ v. ltb v (2 ^ (template_of template.now).lines)) }
{
    match level {
        2 => next_shares(template.gates().len()),
        3 => candidates::numbers_below(2),
        4 => candidates::numbers_below(template.gates().len()),
        5 => next_flips(template.lines()),
        _ => 0,
    }
}

// Whether line x is the image of a line already.
fn is_mapped(key: &Key, x: &Line) -> bool
    ensures { result ≡ has_number_lem (drop BEFORE_MAP (keyed key.now)) x.now.number }
{
    key.as_slice()
        .iter()
        .skip(BEFORE_MAP)
        .any(|image| *image == u16::from(x.number))
}

// Whether the gate can still stand somewhere, where a line with these roles is the image of the line.
fn can_still_stand<K: GateKind>(roles: &RoleSets, image: Image, line: u8) -> bool
    ensures { (frame : List Gate) (x : ℕ) → HasRoles K.means frame x roles.now → result ≡ some_of image.reached (can_stand K.means frame image.member.gate line x) }
{
    image.narrowed::<K>(roles, line).reached != 0
}

// Whether each of the gates can still stand somewhere, where line x is the image of the line.
fn is_possible<K: GateKind>(start: &Start<K>, images: &[Image], line: u8, x: &Line) -> bool
    ensures { result ≡ all_stand K.means (contents start.now.frame) images.now line x.now.number }
{
    let roles = start.roles_at(x);
    images
        .iter()
        .all(|image| can_still_stand::<K>(&roles, *image, line))
}

// The lines that can be the image of the line: those that are none yet and leave each of the first few gates somewhere to stand.
pub(crate) fn next_lines<K: GateKind>(
    start: &Start<K>,
    note: &Note,
    key: &Key,
    few: usize,
    line: u8,
    lines: u8,
) -> u64
    ensures { lines ≤ WIDTH
        → IsSet result (λ x. nat_lt x lines && (not (has_number_lem (drop BEFORE_MAP (keyed key.now)) x) && possible K.means (contents start.now.frame) note.now few line x)) }
{
    let images = note.images.as_slice();
    let images = &images[..few.min(images.len())];
    numbers_where(usize::from(lines), |x| {
        Line::try_from(x).is_ok_and(|x| {
            !is_mapped(key, &x) && is_possible::<K>(start, images, line, &x)
        })
    })
}

// The distances at which the gate of that number can stand, behind the one that was chosen last.
pub(crate) fn next_places<K: GateKind>(
    start: &Start<K>,
    note: &Note,
    place: usize,
    last: usize,
) -> u64
    ensures { IsSet result (λ d. bit (image_at note.now place).reached d && (nat_lt d (length (contents start.now.frame)) && (nat_lt last d && movable K.means (contents start.now.frame) note.now.chosen d))) }
{
    let Some(image) = note.images.as_slice().get(place) else {
        return 0;
    };
    image.reached & start.eligible(note.chosen, last)
}
