// Refusals of gates: the check that makes them, and their numbers.
ghost use Rattle.std.specs.Prelude.{◌≡◌};
ghost use Rattle.gates.specs.Refusals.{gate_outcome, gate_refusal_number};

use super::{Gate, GateKind, GateRefusal};

impl GateRefusal {
    // The refusal's number, by which users know it.
    pub fn number(self) -> u8
        ensures { result ≡ gate_refusal_number self }
    {
        match self {
            GateRefusal::NotWellFormed => 2,
        }
    }
}

// Refuses a gate that is not well formed for so many lines.
pub fn check_gate<K: GateKind>(gate: Gate, lines: u8) -> Result<(), GateRefusal>
    ensures { result ≡ gate_outcome K.means lines gate }
{
    if K::is_well_formed(gate, lines) {
        Ok(())
    } else {
        Err(GateRefusal::NotWellFormed)
    }
}
