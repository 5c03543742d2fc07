// The workspace: a store of gates, a shelf of templates and a policy.
ghost use Rattle.std.specs.Prelude.{◌≡◌, length};
ghost use Rattle.stores.specs.Stores.{Sound as SoundStore, read_outcome};
ghost use Rattle.workspace.specs.Conditions.{Sound, opened, replacements_outcome};
ghost use Rattle.workspace.specs.Holdings.{condition_in};

use super::shelf::Shelf;
use super::{Holdings, TemplateRefusal};
use gates::Gate;
use search::Policy;
use stores::{Store, StoreRefusal};

// A cascade in a store, which templates on the shelf shorten; the policy decides which occurrence is replaced.
// No model: `into_parts` gives the store and the policy back themselves, so that its value would be all the fields again.
#[derive(Drop)]
pub struct Workspace<S, P> {
    pub(crate) holdings: Holdings<S>,
    pub(crate) policy: P,
}

impl<S: Store, P: Policy> Workspace<S, P> {
    // The workspace on a store, whose gates are the opening gates; the shelf is bare.
    pub fn new(store: S, policy: P) -> Workspace<S, P>
        ensures holds { (result.holdings.store ≡ store) × (result.policy ≡ policy) }
        ensures opens { condition_in S.means result ≡ opened (S.means store) }
        ensures sound { SoundStore S.Kind.means (S.means store) → Sound S.Kind.means (condition_in S.means result) }
    {
        Workspace {
            holdings: Holdings {
                store,
                shelf: Shelf::new(),
            },
            policy,
        }
    }

    // The store and the policy, as they are now.
    pub fn into_parts(self) -> (S, P)
        ensures { (result.0 ≡ self.holdings.store) × (result.1 ≡ self.policy) }
    {
        (self.holdings.store, self.policy)
    }

    // The number of lines that the gates are on.
    pub fn lines(&self) -> u8
        ensures { result ≡ (condition_in S.means self.now).store.lines }
    {
        self.holdings.store.lines()
    }

    // The number of gates.
    pub fn gate_count(&self) -> usize
        ensures { result ≡ length (condition_in S.means self.now).store.gates }
    {
        self.holdings.store.count()
    }

    // The gate at a place.
    pub fn gate(&self, place: usize) -> Result<Gate, StoreRefusal>
        ensures { result ≡ read_outcome (condition_in S.means self.now).store place }
    {
        self.holdings.store.read(place)
    }

    // The number of entries on the shelf.
    pub fn entry_count(&self) -> usize
        ensures { result ≡ length (condition_in S.means self.now).shelf }
    {
        self.holdings.shelf.count()
    }

    // How many replacements were made by an entry since it was shelved.
    pub fn replacements(&self, number: usize) -> Result<u16, TemplateRefusal>
        ensures { result ≡ replacements_outcome (condition_in S.means self.now) number }
    {
        self.holdings
            .shelf
            .replacements(number)
            .ok_or(TemplateRefusal::NoSuchEntry)
    }
}
