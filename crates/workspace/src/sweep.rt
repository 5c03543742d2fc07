// Sweeping and settling: the search for what occurs, and the replacement of what the policy singles out.
ghost use Rattle.std.specs.Prelude.{◌≡◌, OnErr};
ghost use Rattle.workspace.specs.Conditions.{Sound};
ghost use Rattle.workspace.specs.Holdings.{condition_in};
ghost use Rattle.workspace.specs.Promises.{Event, Keeps, KeptAfter, KeptSettling};
ghost use Rattle.workspace.specs.Sweeps.{settle_refusal_number};

use super::frame::REACH;
use super::{Ending, Replacement, SettleRefusal, Settling, Workspace};
use search::{Policy, choose};
use stores::Store;

// The greatest budget that settling takes.
pub const MOST_BUDGET: usize = 4096;

// How far behind its first place an occurrence reaches at most.
const LAST_DISTANCE: usize = REACH - 1;

impl SettleRefusal {
    // The refusal's number, by which users know it.
    pub fn number(self) -> u8
        ensures { result ≡ settle_refusal_number self }
    {
        match self {
            SettleRefusal::Budget => 10,
        }
    }
}

impl<S: Store, P: Policy> Workspace<S, P> {
    // Makes one replacement: what the policy, cleared, singles out of all that occurs, in rank order; none where nothing occurs.
    pub fn sweep(&mut self) -> Option<Replacement>
        ensures promised { Keeps S.means S.Kind.means P.rule self.old (Event.sweep result) self.new }
        ensures policy { Sound S.Kind.means (condition_in S.means self.old)
            → KeptAfter S.Kind.means P.rule (condition_in S.means self.old) (P.kept self.new.policy) }
    {
        let found = choose(&self.holdings, &mut self.policy, 0)?;
        Some(self.holdings.replace(&found.key))
    }

    // Sweeps until nothing occurs or the budget is used. After a replacement it need not look at the places before which
    // nothing occurred and nothing in reach has changed.
    pub fn settle(&mut self, budget: usize) -> Result<Settling, SettleRefusal>
        ensures refused { OnErr result (self.new ≡ self.old) }
        ensures promised { Keeps S.means S.Kind.means P.rule self.old (Event.settle budget result) self.new }
        ensures policy { Sound S.Kind.means (condition_in S.means self.old)
            → KeptSettling S.Kind.means P.rule result (condition_in S.means self.new) (P.kept self.old.policy) (P.kept self.new.policy) }
    {
        if budget > MOST_BUDGET {
            return Err(SettleRefusal::Budget);
        }
        let mut replacements = 0;
        let mut saved: usize = 0;
        let mut from = 0;
        while let Some(found) = choose(&self.holdings, &mut self.policy, from) {
            if replacements == budget {
                return Ok(Settling {
                    ending: Ending::Spent,
                    replacements,
                    saved,
                });
            }
            let made = self.holdings.replace(&found.key);
            replacements += 1;
            saved = saved.saturating_add(made.saved);
            from = found.lowest.min(made.place.saturating_sub(LAST_DISTANCE));
        }
        Ok(Settling {
            ending: Ending::Settled,
            replacements,
            saved,
        })
    }
}
