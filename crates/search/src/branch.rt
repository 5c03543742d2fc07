// Branches of the search: the keys that begin with one first number.
ghost use Rattle.std.specs.Prelude.{◌≡◌, ◌<◌, false, length};
ghost use Rattle.std.specs.Bool.{then_some};
ghost use Rattle.search.specs.Keys.{key_size, keyed};
ghost use Rattle.search.specs.Listing.{Covers, Whole};
ghost use Rattle.search.specs.Prefixes.{FitsBranch};

use super::{KEY_SIZE, Key, Problem, Shown};

// What is searched, and what was worked out once for a first number.
// The note and the key of a prefix are lent beside it: a struct that kept their address would have them copied at every step.
#[derive(Drop)]
pub(crate) struct Branch<'a, Q: Problem> {
    pub(crate) problem: &'a Q,
    pub(crate) start: &'a Q::Start,
}

impl<'a, Q: Problem> Branch<'a, Q> {
    // Whether no longer key occurs.
    pub(crate) fn is_last(&self, note: &Q::Note, key: &Key) -> bool
        ensures whole { FitsBranch Q.Problem self.now key.now note.now → Whole (Q.test self.now.problem.now) (keyed key.now) result }
        ensures room { result ≡ false → length (keyed key.now) < key_size }
    {
        key.len() == KEY_SIZE || self.problem.is_whole(self.start, note, key)
    }

    // A set that has the next number of every longer key that occurs.
    pub(crate) fn candidates(&self, note: &Q::Note, key: &Key) -> u64
        ensures { FitsBranch Q.Problem self.now key.now note.now → Covers (Q.test self.now.problem.now) (keyed key.now) result }
    {
        self.problem.candidates(self.start, note, key)
    }

    // What a policy is shown of the key, if it occurs.
    pub(crate) fn shown(&self, note: &Q::Note, key: &Key) -> Option<Shown>
        ensures { FitsBranch Q.Problem self.now key.now note.now
            → result ≡ then_some (Q.test self.now.problem.now (keyed key.now)) (Q.view self.now.problem.now (keyed key.now)) }
    {
        self.problem
            .occurs(self.start, note, key)
            .then(|| self.problem.shown(self.start, note, key))
    }
}
