// What a key names, read into numbers of their sizes.
ghost use Rattle.std.specs.Prelude.{◌≡◌, ◌∷◌};
ghost use Rattle.fixed_list.specs.Lists.{contents};

use super::posed::Pose;
use super::template::{MOST_GATES, MOST_LINES};
use fixed_list::FixedList;
use std::iter;

// How many numbers stand before a key's line map.
pub(crate) const BEFORE_MAP: usize = 6;

// How many lines a table has at most.
pub(crate) const MOST_MAPPED: usize = MOST_LINES as usize;

// How many places an occurrence has at most beside the first.
pub(crate) const MOST_LATER: usize = MOST_GATES - 1;

// The lines that a turned template's lines become, from its line 0 on.
pub(crate) type Table = FixedList<u8, MOST_MAPPED>;

// The distances of places from the first, which is at 0.
pub(crate) type Distances = FixedList<usize, MOST_GATES>;

// An occurrence that a key names: its template's number, the pose and the table of the turn, and its places, the later ones by their distance from the first.
#[derive(Clone, Copy)]
pub(crate) struct Named {
    pub(crate) first: usize,
    pub(crate) number: usize,
    pub(crate) pose: Pose,
    pub(crate) table: Table,
    pub(crate) later: FixedList<usize, MOST_LATER>,
}

impl Named {
    // The distances of all places.
    pub(crate) fn distances(&self) -> Distances
        ensures { contents result ≡ 0 ∷ contents self.now.later }
    {
        let later = self.later.as_slice().iter().copied();
        FixedList::collected(iter::once(0).chain(later), 0)
    }
}
