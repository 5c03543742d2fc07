// The search for occurrences in what a workspace holds.
ghost use Rattle.std.specs.Prelude.{◌≡◌, ◌-◌, ◌≤◌, ◌∷◌, drop, length, slice_index};
ghost use Rattle.search.specs.Keys.{keyed};
ghost use Rattle.workspace.specs.Holdings.{condition_of};
ghost use Rattle.workspace.specs.Matching.{OccursIn, Searchable, occurs_in_test, shown_of};
ghost use Rattle.workspace.specs.Notes.{Noted};
ghost use Rattle.workspace.specs.Firsts.{Started};
ghost use Rattle.workspace.specs.Shelves.{IsNumbered, entries_of};

use super::line::Line;
use super::named::BEFORE_MAP;
use super::notes::{Image, Note};
use super::occurs::is_occurrence;
use super::posed::Pose;
use super::start::{Start, start_at};
use super::template::MOST_GATES;
use super::{Holdings, Template, levels, noting};
use fixed_list::FixedList;
use gates::LineSet;
use search::{Key, Problem, Shown, candidates};
use stores::Store;

// How many numbers a whole key has beside its line map, its third number added: that is 8 - k, and k - 1 later places stand behind the map.
const WHOLE: usize = BEFORE_MAP + MOST_GATES - 1;

// How many places the key says that its occurrence has.
fn named_places(key: &Key) -> usize
    ensures { result ≡ MOST_GATES - slice_index (keyed key.now) 2 }
{
    MOST_GATES.saturating_sub(usize::from(key.at(2)))
}

// The distance that the key names last, of those behind so many numbers; 0, that of the first place, where it names none.
fn last_distance(key: &Key, before: usize) -> usize
    requires { before ≤ length (keyed key.now) }
    ensures { result ≡ slice_index (0 ∷ drop before (keyed key.now)) (length (keyed key.now) - before) }
{
    usize::from(key.as_slice()[before..].last().copied().unwrap_or(0))
}

impl<S> Holdings<S> {
    // The template that the key numbers, where there is one.
    fn template_of_key(&self, key: &Key) -> Option<&Template>
        ensures { IsNumbered (entries_of self.now.shelf) (slice_index (keyed key.now) 1) result }
    {
        self.shelf.template_at(usize::from(key.at(1)))
    }
}

impl<S: Store> Problem for Holdings<S> {
    type Start = Start<S::Kind>;

    type Note = Note;

    ghost sound = { λ h. Searchable S.Kind.means (condition_of S.means h) };

    ghost occurring = { λ h. OccursIn S.Kind.means (condition_of S.means h) };

    ghost test = { λ h. occurs_in_test S.Kind.means (condition_of S.means h) };

    ghost decides = { λ h searchable. searchable.decides };

    ghost formed = { λ h searchable. searchable.fits };

    ghost view = { λ h. shown_of (condition_of S.means h).shelf };

    ghost started = { λ h first start. Started (S.means h.store).gates first start };

    ghost noted = { λ h. Noted S.Kind.means (condition_of S.means h) };

    fn starts(&self) -> usize {
        self.store.count()
    }

    fn start(&self, first: u16) -> Start<S::Kind> {
        start_at(&self.store, usize::from(first))
    }

    fn blank(&self) -> Note {
        Note {
            images: FixedList::new(Image::BLANK),
            chosen: 0,
        }
    }

    fn note(&self, start: &Start<S::Kind>, above: &Note, key: &Key) -> Note {
        let Some(template) = self.template_of_key(key) else {
            return *above;
        };
        let Some(behind) = key.len().checked_sub(BEFORE_MAP) else {
            return *above;
        };
        if behind == 0 {
            return noting::posed_note::<S::Kind>(
                template,
                Pose {
                    back: key.at(3) == 1,
                    rotation: usize::from(key.at(4)),
                    flips: LineSet::from(key.at(5)),
                },
            );
        }
        let line = behind - 1;
        let last = usize::from(key.at(BEFORE_MAP + line));
        if line >= usize::from(template.lines()) {
            return above.with_distance(last);
        }
        let Ok(x) = Line::try_from(last) else {
            return *above;
        };
        let mut note = *above;
        note.narrow::<S::Kind>(start, line as u8, &x);
        note
    }

    fn is_whole(&self, start: &Start<S::Kind>, note: &Note, key: &Key) -> bool {
        key.len() >= BEFORE_MAP
            && self.template_of_key(key).is_none_or(|template| {
                key.len() + usize::from(key.at(2)) >= WHOLE + usize::from(template.lines())
            })
    }

    fn candidates(&self, start: &Start<S::Kind>, note: &Note, key: &Key) -> u64 {
        if key.len() == 1 {
            return candidates::numbers_below(self.shelf.count());
        }
        let Some(template) = self.template_of_key(key) else {
            return 0;
        };
        let lines = usize::from(template.lines());
        match key.len().checked_sub(BEFORE_MAP) {
            None => levels::next_pose(template, key.len()),
            Some(line) if line < lines => levels::next_lines::<S::Kind>(
                start,
                note,
                key,
                named_places(key),
                line as u8,
                self.store.lines(),
            ),
            Some(line) => {
                let last = last_distance(key, BEFORE_MAP + lines);
                levels::next_places(start, note, line - lines + 1, last)
            }
        }
    }

    fn occurs(&self, start: &Start<S::Kind>, note: &Note, key: &Key) -> bool {
        is_occurrence::<S::Kind>(start.frame.as_slice(), self.store.lines(), &self.shelf, key)
    }

    fn shown(&self, start: &Start<S::Kind>, note: &Note, key: &Key) -> Shown {
        let size = self.template_of_key(key).map_or(0, Template::size);
        Shown {
            saved: (2 * named_places(key)).saturating_sub(size),
            place: usize::from(key.at(0)),
            template: usize::from(key.at(1)),
        }
    }
}
