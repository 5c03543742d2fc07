// Calls that change a workspace: a gate more, a template more, a template less.
ghost use Rattle.std.specs.Prelude.{◌≡◌};
ghost use Rattle.workspace.specs.Promises.{Event, Keeps};
ghost use Rattle.workspace.specs.Proposals.{proposed};

use super::{Proposal, TemplateRefusal, Workspace, check_proposal};
use gates::Gate;
use search::Policy;
use stores::{Store, StoreRefusal};

impl<S: Store, P: Policy> Workspace<S, P> {
    // Puts a gate at the end of the list.
    pub fn append(&mut self, gate: Gate) -> Result<(), StoreRefusal>
        ensures promised { Keeps S.means S.Kind.means P.rule self.old (Event.append gate result) self.new }
        ensures policy { self.new.policy ≡ self.old.policy }
    {
        let place = self.holdings.store.count();
        self.holdings.store.insert(place, gate)
    }

    // Puts a template at the end of the shelf, its count 0, where it meets the rules.
    pub fn shelve(&mut self, proposal: &Proposal) -> Result<(), TemplateRefusal>
        ensures promised { Keeps S.means S.Kind.means P.rule self.old (Event.shelve (proposed proposal.now) result) self.new }
        ensures policy { self.new.policy ≡ self.old.policy }
    {
        let template = check_proposal::<S::Kind>(proposal)?;
        self.holdings
            .shelf
            .push(template)
            .map_err(|_| TemplateRefusal::ShelfFull)
    }

    // Takes an entry off the shelf; the entries behind it move up, each with its count.
    pub fn withdraw(&mut self, number: usize) -> Result<(), TemplateRefusal>
        ensures promised { Keeps S.means S.Kind.means P.rule self.old (Event.withdraw number result) self.new }
        ensures policy { self.new.policy ≡ self.old.policy }
    {
        self.holdings
            .shelf
            .remove(number)
            .ok_or(TemplateRefusal::NoSuchEntry)?;
        Ok(())
    }
}
