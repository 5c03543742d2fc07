// What is searched for, and what a policy singles out of all keys that occur.
ghost use Rattle.std.specs.Prelude.{◌≡◌, ℕ, ◌<◌, ◌≤◌, Bool, true, false, List, [], length, Decides};
ghost use Rattle.search.specs.declared.policy.Shown.{Shown};
ghost use Rattle.search.specs.Keys.{key_size, keyed, number_limit};
ghost use Rattle.search.specs.Listing.{Chosen, Covers, FitsAt, FitsKey, FoundLowest, NotedNext, StartsBelow, StartsFrom, Whole, found_key};

use super::showing::Showing;
use super::{Key, Policy, Shown};

// What a search found: the key that the policy singled out, and the least first number of all keys that occur.
#[derive(Clone, Copy)]
pub struct Found {
    pub key: Key,
    pub lowest: usize,
}

// What is searched for: the keys that are `occurring`, which `test` decides.
// A method is handed the parts of a prefix one by one: most use one or two, which a struct would spell `prefix.key`.
pub trait Problem {
    // What is worked out once for a first number, and serves all keys that begin with it.
    type Start: Drop;

    // What is worked out once for a prefix, and serves all keys that begin with it.
    type Note: Drop;

    // What has to hold of what is searched, so that the search is right.
    ghost sound: { Self → Type 0 };

    // The keys that occur.
    ghost occurring: { Self → List ℕ → Type 0 };

    // The test that decides it.
    ghost test: { Self → List ℕ → Bool };

    ghost decides: { (s : Self) → sound s → (k : List ℕ) → Decides (test s k) (occurring s k) };

    ghost formed: { (s : Self) → sound s → FitsKey (test s) key_size number_limit };

    // What a policy is shown of a key.
    ghost view: { Self → List ℕ → Shown };

    // What is known of the note of a first number, and of the note of a prefix.
    ghost started: { Self → ℕ → Self.Start → Type 0 };

    ghost noted: { Self → List ℕ → Self.Note → Type 0 };

    // A number that is above the first number of every key that occurs.
    fn starts(&self) -> usize
        ensures covers { sound self.now → StartsBelow (test self.now) result }
        ensures few { result ≤ number_limit };

    // The note of a first number.
    fn start(&self, first: u16) -> Self::Start
        ensures { sound self.now → started self.now first result };

    // The note of the prefix of no numbers.
    fn blank(&self) -> Self::Note
        ensures { sound self.now → noted self.now [] result };

    // The note of a key, by the note of the key without its last number.
    fn note(&self, start: &Self::Start, above: &Self::Note, key: &Key) -> Self::Note
        ensures { NotedNext (sound self.now) (started self.now) (noted self.now) (keyed key.now)
            start.now above.now result };

    // Whether the key is whole: none that occurs is longer.
    fn is_whole(&self, start: &Self::Start, note: &Self::Note, key: &Key) -> bool
        ensures { FitsAt sound started noted self.now key.now start.now note.now
            → Whole (test self.now) (keyed key.now) result };

    // A set that has the next number of every longer key that occurs.
    fn candidates(&self, start: &Self::Start, note: &Self::Note, key: &Key) -> u64
        ensures { FitsAt sound started noted self.now key.now start.now note.now
            → Covers (test self.now) (keyed key.now) result };

    // Whether the key occurs.
    fn occurs(&self, start: &Self::Start, note: &Self::Note, key: &Key) -> bool
        ensures { FitsAt sound started noted self.now key.now start.now note.now
            → result ≡ test self.now (keyed key.now) };

    // What a policy is shown of the key.
    fn shown(&self, start: &Self::Start, note: &Self::Note, key: &Key) -> Shown
        ensures { FitsAt sound started noted self.now key.now start.now note.now
            → result ≡ view self.now (keyed key.now) };
}

// What the policy, cleared, singles out of all that occurs, where what is searched is sound and no key that occurs begins
// with a number below `from`.
pub fn choose<Q: Problem, P: Policy>(problem: &Q, policy: &mut P, from: usize) -> Option<Found>
    ensures chosen { Q.sound problem.now → StartsFrom (Q.occurring problem.now) from
        → Chosen (Q.occurring problem.now) (Q.view problem.now) P.rule
        (found_key result) (P.kept policy.new) }
    ensures lowest { Q.sound problem.now → StartsFrom (Q.occurring problem.now) from
        → FoundLowest (Q.occurring problem.now) result }
{
    let mut showing = Showing::new(policy);
    let lowest = showing.search(problem, from);
    showing.taken.map(|key| Found { key, lowest })
}
