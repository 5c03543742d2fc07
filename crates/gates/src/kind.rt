// Kinds of gates: a kind is known by what its gates do to a state.
ghost use Rattle.std.specs.Prelude.{◌≡◌};
ghost use Rattle.gates.specs.Kinds.{KindLaws, KindMeaning};
ghost use Rattle.gates.specs.Lines.{bit};

use super::{Gate, LineSet, Sign};

// Every call takes any gate, line, table and set; `means` says what it gives, and `lawful` what holds of well-formed gates.
pub trait GateKind {
    ghost means: { KindMeaning };

    // Whether the gate is well formed for so many lines.
    fn is_well_formed(gate: Gate, lines: u8) -> bool
        ensures { result ≡ means.form lines gate };

    // The state that the gate sends this one to.
    fn run(gate: Gate, state: LineSet) -> LineSet
        ensures { bit result ≡ means.sends gate (bit state) };

    // The gate that undoes this one.
    fn inverse(gate: Gate) -> Gate
        ensures { result ≡ means.inverse gate };

    // Whether the two gates interchange: in a row, either may come first.
    fn interchange(first: Gate, second: Gate) -> bool
        ensures { result ≡ means.free first second };

    // The gate on other lines: the table's entry i is the new line of line i.
    fn renamed(gate: Gate, table: &[u8]) -> Gate
        ensures { result ≡ means.renamed table.now gate };

    // The gate that does what this one does between two inversions of the chosen lines; none where there is no such gate.
    fn flipped(gate: Gate, chosen: LineSet) -> Option<Gate>
        ensures { result ≡ means.flipped chosen gate };

    // The gate with one more control.
    fn controlled(gate: Gate, line: u8, sign: Sign) -> Gate
        ensures { result ≡ means.controlled line sign gate };

    // The lines that the gate names and that are no controls.
    fn targets(gate: Gate) -> LineSet
        ensures { result ≡ means.targets gate };

    ghost lawful: { KindLaws means };
}
