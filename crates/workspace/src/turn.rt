// Turns of a template: directed, rotated, flipped, on other lines, with controls added by groups.
ghost use Rattle.workspace.specs.TurnTests.{TurnsDecided};
ghost use Rattle.workspace.specs.TurnTheorem.{Turning};

use gates::GateKind;

// The theorem of turns, which every kind has, and that the test of a turn decides.
pub fn turn_laws<K: GateKind>()
    ensures turning { Turning K.means }
    ensures decided { TurnsDecided K.means }
{}
