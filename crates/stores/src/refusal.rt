// Why a store refuses a call, and the numbers of refusals.
ghost use Rattle.std.specs.Prelude.{◌≡◌};
ghost use Rattle.stores.specs.Stores.{store_refusal_number};
ghost use Rattle.stores.specs.declared.refusal.StoreRefusal.TheVariants.{Gate as RefusedGate};

use gates::GateRefusal;

// A call that is refused changes nothing.
#[derive(Clone, Copy, PartialEq, Eq, Debug)]
pub enum StoreRefusal {
    // A line count that is not 1 to 32, or a line table that is no rearrangement of the store's lines.
    Lines,
    // The gate is refused.
    Gate(GateRefusal),
    // The list is at capacity.
    Full,
    // There is no such place, or no such window.
    NoSuchPlace,
}

// A gate that is refused is no gate for a store.
impl From<GateRefusal> for StoreRefusal {
    ghost from_gives = { λ refusal given. given ≡ RefusedGate refusal };

    fn from(refusal: GateRefusal) -> StoreRefusal {
        Self::Gate(refusal)
    }
}

impl StoreRefusal {
    // The refusal's number, by which users know it.
    pub fn number(self) -> u8
        ensures { result ≡ store_refusal_number self }
    {
        match self {
            StoreRefusal::Lines => 1,
            StoreRefusal::Gate(refusal) => refusal.number(),
            StoreRefusal::Full => 3,
            StoreRefusal::NoSuchPlace => 9,
        }
    }
}
