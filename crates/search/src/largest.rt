// The policy that takes an occurrence that saves most.
ghost use Rattle.std.specs.Prelude.{◌≡◌};
ghost use Rattle.search.specs.Policies.{largest, listed_number};
ghost use Rattle.std.proofs.Common.{rules};

use super::{Policy, Reply, Shown};

// Takes the first occurrence that it is shown, and then only one that saves more than all before it.
#[derive(Clone, Copy, Debug)]
pub struct Largest {
    // What the occurrence that was taken saves; nothing where none was.
    best: Option<usize>,
}

impl Largest {
    // The policy, with nothing taken.
    pub fn new() -> Largest
        ensures { listed_number result.best ≡ largest.cleared }
    {
        Largest { best: None }
    }
}

impl Policy for Largest {
    ghost rule = { largest };

    ghost kept = { λ policy. listed_number policy.best };

    ghost takes_first = { Prim.search rules };

    fn clear(&mut self) {
        self.best = None;
    }

    fn show(&mut self, shown: Shown) -> Reply {
        if self.best.is_some_and(|best| shown.saved <= best) {
            return Reply::Leave;
        }
        self.best = Some(shown.saved);
        Reply::Take
    }
}
