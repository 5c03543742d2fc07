// Replacing an occurrence: the plan, and carrying it out.
ghost use Rattle.std.specs.Prelude.{◌≡◌, ℕ, List};
ghost use Rattle.search.specs.Keys.{keyed};
ghost use Rattle.workspace.specs.Conditions.{Sound};
ghost use Rattle.workspace.specs.Holdings.{condition_of};
ghost use Rattle.workspace.specs.Matching.{OccursIn};
ghost use Rattle.workspace.specs.Plans.{Planned, Plans};
ghost use Rattle.workspace.specs.Sweeps.{Replaced};

use super::decoding::decode;
use super::extension::extend;
use super::framing::{frame_from, gates_at};
use super::plan::Plan;
use super::store_edits::{put_inverses, take_out};
use super::{Holdings, Replacement};
use search::Key;
use stores::Store;

impl<S: Store> Holdings<S> {
    // The plan of replacing the occurrence that the key names; none where it names none.
    fn plan(&self, key: &Key) -> Option<Plan>
        ensures { Sound S.Kind.means (condition_of S.means self.now)
            → OccursIn S.Kind.means (condition_of S.means self.now) (keyed key.now)
            → Plans S.Kind.means (condition_of S.means self.now) (keyed key.now) result }
    {
        let template = self.shelf.template_at(usize::from(key.at(1)))?;
        let named = decode(template.lines(), key)?;
        let frame = frame_from(&self.store, named.first);
        let chosen = gates_at(frame.as_slice(), &named.distances());
        let extended = extend::<S::Kind>(
            chosen.as_slice(),
            self.store.lines(),
            template,
            &named,
        ).ok()?;
        Some(Plan { named, extended })
    }

    // Takes the chosen gates out, puts the inverses of the template's other gates in, last to first, and counts the replacement.
    fn carry_out(&mut self, plan: &Plan) -> Replacement
        ensures { (key : List ℕ) → Sound S.Kind.means (condition_of S.means self.old)
            → Planned S.Kind.means (condition_of S.means self.old) key plan.now
            → Replaced S.Kind.means (condition_of S.means self.old) key result (condition_of S.means self.new) }
    {
        let named = &plan.named;
        let extended = plan.extended.as_slice();
        let chosen = (named.later.len() + 1).min(extended.len());
        take_out(&mut self.store, named.first, named.later.as_slice());
        put_inverses(&mut self.store, named.first, &extended[chosen..]);
        self.shelf.count_one(named.number);
        Replacement {
            template: named.number,
            place: named.first,
            saved: (2 * chosen).saturating_sub(extended.len()),
        }
    }

    // Replaces the occurrence that the key names.
    pub(crate) fn replace(&mut self, key: &Key) -> Replacement
        ensures { Sound S.Kind.means (condition_of S.means self.old)
            → OccursIn S.Kind.means (condition_of S.means self.old) (keyed key.now)
            → Replaced S.Kind.means (condition_of S.means self.old) (keyed key.now) result (condition_of S.means self.new) }
    {
        // A key that occurs has a plan; the zeros stand for one that does not.
        match self.plan(key) {
            Some(plan) => self.carry_out(&plan),
            None => Replacement {
                template: 0,
                place: 0,
                saved: 0,
            },
        }
    }
}
