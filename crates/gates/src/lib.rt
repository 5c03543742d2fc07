// Reversible gates with controls of both signs: the gate record, kinds of gates, and running a cascade.
#![tactic(auto)]

mod cascade;
mod controls;
mod fredkin;
mod gate;
mod kind;
mod refusal;
pub mod sets;
mod toffoli;

pub use cascade::{cascade_laws, invert_cascade, run_cascade, worked_examples};
pub use fredkin::Fredkin;
pub use gate::{Gate, GateRefusal, LineSet, Sign, WIDTH};
pub use kind::GateKind;
pub use refusal::check_gate;
pub use toffoli::Toffoli;
