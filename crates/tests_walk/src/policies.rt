// Policies for the tests, beside those that the search comes with.
ghost use Rattle.std.specs.Prelude.{[]};
ghost use Rattle.tests_walk.specs.Policies.{to_the_end, until_twenty};
ghost use Rattle.std.proofs.Common.{rules};

use search::{Policy, Reply, Shown};

// Takes one after another.
#[derive(Clone, Copy)]
pub struct ToTheEnd {}

impl Policy for ToTheEnd {
    ghost rule = { to_the_end };

    ghost kept = { λ _. [] };

    ghost takes_first = { Prim.search rules };

    fn clear(&mut self) {}

    fn show(&mut self, _shown: Shown) -> Reply {
        Reply::Take
    }
}

// Takes one after another, and closes at one that saves 20 or more.
#[derive(Clone, Copy)]
pub struct UntilTwenty {}

impl Policy for UntilTwenty {
    ghost rule = { until_twenty };

    ghost kept = { λ _. [] };

    ghost takes_first = { Prim.search rules };

    fn clear(&mut self) {}

    fn show(&mut self, shown: Shown) -> Reply {
        if shown.saved < 20 {
            Reply::Take
        } else {
            Reply::Close
        }
    }
}
