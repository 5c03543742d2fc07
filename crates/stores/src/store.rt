// Stores: lists of gates of one kind in memory that the caller lends, or seen through another store.
ghost use Rattle.std.specs.Prelude.{◌≡◌, length};
ghost use Rattle.stores.specs.Stores.{Bounded, StoreMeaning, after, answer, insert_outcome, overwrite_outcome, read_outcome, remove_outcome};

use super::StoreRefusal;
use gates::{Gate, GateKind};

// Every call takes any place and any gate; questions and refusals change nothing.
pub trait Store {
    type Kind: GateKind;

    ghost means: { Self → StoreMeaning };

    ghost bounded: { (s : Self) → Bounded (means s) };

    // How many lines the gates are on.
    fn lines(&self) -> u8
        ensures { result ≡ (means self.now).lines };

    // The most gates that the list can have.
    fn capacity(&self) -> usize
        ensures { result ≡ (means self.now).capacity };

    // The length of the list.
    fn count(&self) -> usize
        ensures { result ≡ length (means self.now).gates };

    // The gate at a place.
    fn read(&self, place: usize) -> Result<Gate, StoreRefusal>
        ensures { result ≡ read_outcome (means self.now) place };

    // Puts the gate in the place of the one that stands there.
    fn overwrite(&mut self, place: usize, gate: Gate) -> Result<(), StoreRefusal>
        ensures answers { result ≡ answer (overwrite_outcome Self.Kind.means (means self.old) place gate) }
        ensures leaves { means self.new ≡ after (means self.old) (overwrite_outcome Self.Kind.means (means self.old) place gate) };

    // Puts the gate before a place, or at the end where the place is the count.
    fn insert(&mut self, place: usize, gate: Gate) -> Result<(), StoreRefusal>
        ensures answers { result ≡ answer (insert_outcome Self.Kind.means (means self.old) place gate) }
        ensures leaves { means self.new ≡ after (means self.old) (insert_outcome Self.Kind.means (means self.old) place gate) };

    // Takes the gate at a place out and answers it.
    fn remove(&mut self, place: usize) -> Result<Gate, StoreRefusal>
        ensures answers { result ≡ answer (remove_outcome (means self.old) place) }
        ensures leaves { means self.new ≡ after (means self.old) (remove_outcome (means self.old) place) };
}
