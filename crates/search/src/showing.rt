// Showing a policy the keys that occur: depth first, the next numbers of each prefix in rising order, so that what occurs
// is shown in rank order.
ghost use Rattle.std.specs.Prelude.{◌≡◌};
ghost use Rattle.std.specs.declared.ops.ControlFlow.TheVariants.{Continue};
ghost use Rattle.search.specs.Keys.{held, keyed};
ghost use Rattle.search.specs.Listing.{Passes, Searched, StartsFrom, alone, shown_under};
ghost use Rattle.search.specs.Policy.{opening, scan};
ghost use Rattle.search.specs.Prefixes.{FitsBranch, stands};

use super::branch::Branch;
use super::candidates::Numbers;
use super::{Key, Policy, Problem, Reply};
use std::ops::ControlFlow;

// A policy that is shown keys, up to a close, and the last one taken. The clauses `same` say that it stays the caller's policy.
#[derive(Drop)]
pub(crate) struct Showing<'a, P: Policy> {
    pub(crate) policy: &'a mut P,
    pub(crate) taken: Option<Key>,
}

impl<'a, P: Policy> Showing<'a, P> {
    // The policy, cleared, that has taken nothing.
    pub(crate) fn new(policy: &'a mut P) -> Showing<'a, P>
        ensures same { result.policy.ghost_name ≡ policy.entry.ghost_name }
        ensures stands { stands P.kept (Continue tt) result ≡ opening P.rule }
    {
        policy.clear();
        Showing {
            policy,
            taken: None,
        }
    }

    // Shows the policy a whole key, if it occurs; breaks at a close.
    fn visit<Q: Problem>(
        &mut self,
        branch: &Branch<Q>,
        note: &Q::Note,
        key: &Key,
    ) -> ControlFlow<()>
        ensures same { self.new.policy.ghost_name ≡ self.old.policy.ghost_name }
        ensures shows { FitsBranch Q.Problem branch.now key.now note.now → stands P.kept result self.new
            ≡ scan P.rule (Q.view branch.now.problem.now) (stands P.kept (Continue tt) self.old) (alone (Q.test branch.now.problem.now) (keyed key.now)) }
    {
        let Some(shown) = branch.shown(note, key) else {
            return ControlFlow::Continue(());
        };
        match self.policy.show(shown) {
            Reply::Leave => ControlFlow::Continue(()),
            Reply::Take => {
                self.taken = Some(*key);
                ControlFlow::Continue(())
            }
            Reply::Close => {
                self.taken = Some(*key);
                ControlFlow::Break(())
            }
        }
    }

    // Shows the policy, in rank order, what occurs of the keys that begin with this one; breaks at a close.
    fn descend<Q: Problem>(
        &mut self,
        branch: &Branch<Q>,
        note: &Q::Note,
        key: &Key,
    ) -> ControlFlow<()>
        ensures same { self.new.policy.ghost_name ≡ self.old.policy.ghost_name }
        ensures shows { FitsBranch Q.Problem branch.now key.now note.now → stands P.kept result self.new
            ≡ shown_under P.rule (Q.view branch.now.problem.now) (Q.test branch.now.problem.now) (keyed key.now) (stands P.kept (Continue tt) self.old) }
    {
        if branch.is_last(note, key) {
            return self.visit(branch, note, key);
        }
        for number in Numbers::of(branch.candidates(note, key)) {
            let longer = key.with(number);
            let deeper = branch.problem.note(branch.start, note, &longer);
            self.descend(branch, &deeper, &longer)?;
        }
        ControlFlow::Continue(())
    }

    // Shows the policy, in rank order, what occurs of the keys with first number `from` or above.
    // Returns the first number of the first that occurs, where one does.
    pub(crate) fn search<Q: Problem>(&mut self, problem: &Q, from: usize) -> usize
        ensures same { self.new.policy.ghost_name ≡ self.old.policy.ghost_name }
        ensures searches { stands P.kept (Continue tt) self.old ≡ opening P.rule → Q.sound problem.now → StartsFrom (Passes (Q.test problem.now)) from
            → Searched (Q.test problem.now) (Q.view problem.now) P.rule (held self.new.taken) (P.kept self.new.policy.now) result }
    {
        let end = problem.starts();
        let blank = problem.blank();
        let mut lowest = from.min(end);
        for place in from.min(end)..end {
            if self.taken.is_none() {
                lowest = place;
            }
            let first = place as u16;
            let key = Key::new().with(first);
            let start = problem.start(first);
            let note = problem.note(&start, &blank, &key);
            let branch = Branch {
                problem,
                start: &start,
            };
            if self.descend(&branch, &note, &key).is_break() {
                return lowest;
            }
        }
        lowest
    }
}
