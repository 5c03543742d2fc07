// Occurrences of templates in a cascade, and what replacing one keeps.
ghost use Rattle.workspace.specs.OccurrenceTests.{OccurrencesDecided};
ghost use Rattle.workspace.specs.Occurrences.{Replacing};

use gates::GateKind;

// For every kind: replacing an occurrence keeps what the cascade does for every state and saves gates, and the test of a key decides
// whether it is that of an occurrence.
pub fn occurrence_laws<K: GateKind>()
    ensures replacing { Replacing K.means }
    ensures decided { OccurrencesDecided K.means }
{}
