// Three numbers that add up to a total: a small problem for the search.
ghost use Rattle.std.specs.Prelude.{◌≡◌, ◌-◌};
ghost use Rattle.tests_walk.specs.Facts.{decides_triple, triple_fits};
ghost use Rattle.tests_walk.specs.Triples.{Leaves, Triple, triple_view, triple?};

use search::{Key, Problem, Shown, candidates};

// The total.
#[derive(Clone, Copy)]
pub struct Triples {
    pub total: u16,
}

impl Problem for Triples {
    // What the first number leaves of the total.
    type Start = u16;

    // What all numbers leave of the total.
    type Note = u16;

    ghost sound = { λ _. Unit {0} };

    ghost occurring = { λ s. Triple s.total };

    ghost test = { λ s. triple? s.total };

    ghost decides = { λ s _. decides_triple s.total };

    ghost formed = { λ s _. triple_fits s.total };

    ghost view = { λ _. triple_view };

    ghost started = { λ s first start. start ≡ s.total - first };

    ghost noted = { λ s. Leaves s.total };

    fn starts(&self) -> usize {
        (usize::from(self.total) + 1).min(4096)
    }

    fn start(&self, first: u16) -> u16 {
        self.total.saturating_sub(first)
    }

    fn blank(&self) -> u16 {
        self.total
    }

    fn note(&self, start: &u16, above: &u16, key: &Key) -> u16 {
        above.saturating_sub(key.as_slice().last().copied().unwrap_or(0))
    }

    fn is_whole(&self, start: &u16, note: &u16, key: &Key) -> bool {
        key.len() >= 3
    }

    fn candidates(&self, start: &u16, note: &u16, key: &Key) -> u64 {
        if key.len() == 1 {
            candidates::numbers_below(usize::from(*start) + 1)
        } else {
            candidates::with_number(0, usize::from(*note))
        }
    }

    fn occurs(&self, start: &u16, note: &u16, key: &Key) -> bool {
        let &[a, b, c] = key.as_slice() else {
            return false;
        };
        a < 4096 && b < 64 && c < 64 && a + b + c == self.total
    }

    fn shown(&self, start: &u16, note: &u16, key: &Key) -> Shown {
        Shown {
            saved: usize::from(key.at(1)),
            place: usize::from(key.at(0)),
            template: usize::from(key.at(2)),
        }
    }
}
