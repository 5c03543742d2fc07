// Gates taken out of a store, and others put in their stead.
ghost use Rattle.std.specs.Prelude.{◌≡◌, ◌+◌, ◌-◌, ◌^◌, ◌≤◌, min, ◌∷◌, map, length};
ghost use Rattle.std.specs.List.{AllByRecursion};
ghost use Rattle.gates.specs.Kinds.{Formed};
ghost use Rattle.stores.specs.Stores.{with_gates};
ghost use Rattle.workspace.specs.Edits.{with_inverses, without};

use super::posed::Member;
use gates::GateKind;
use stores::Store;

// Takes out the gate at the first place and those at these distances behind it, the last first, so that the places before it stay what they are.
// A refusal changes nothing, and none comes where the occurrence is there.
pub(crate) fn take_out<S: Store>(store: &mut S, first: usize, later: &[usize])
    ensures { S.means store.new ≡ with_gates (S.means store.old)
        (without (S.means store.old).gates (first ∷ map (λ d. min (first + d) (2 ^ 64 - 1)) later.now)) }
{
    for distance in later.iter().rev() {
        let _ = store.remove(first.saturating_add(*distance));
    }
    let _ = store.remove(first);
}

// Puts the inverses of the members' gates before a place, the last member's first.
// A refusal changes nothing, and none comes where the occurrence is there.
pub(crate) fn put_inverses<S: Store>(store: &mut S, place: usize, members: &[Member])
    ensures { AllByRecursion (λ m. Formed S.Kind.means (S.means store.old).lines m.gate) members.now
        → place ≤ length (S.means store.old).gates
        → length (S.means store.old).gates + length members.now ≤ (S.means store.old).capacity
        → S.means store.new ≡ with_gates (S.means store.old)
        (with_inverses S.Kind.means (S.means store.old).gates place (map (λ m. m.gate) members.now)) }
{
    for member in members {
        let _ = store.insert(place, S::Kind::inverse(member.gate));
    }
}
