// The policy that takes the first occurrence.
ghost use Rattle.std.specs.Prelude.{[]};
ghost use Rattle.search.specs.Policies.{earliest};
ghost use Rattle.std.proofs.Common.{rules};

use super::{Policy, Reply, Shown};

// Takes the first occurrence that it is shown, and looks no further.
#[derive(Clone, Copy, Debug)]
pub struct Earliest {}

impl Policy for Earliest {
    ghost rule = { earliest };

    ghost kept = { λ _. [] };

    ghost takes_first = { Prim.search rules };

    fn clear(&mut self) {}

    fn show(&mut self, _shown: Shown) -> Reply {
        Reply::Close
    }
}
