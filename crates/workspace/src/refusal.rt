// Why a template, or a request to the shelf, is refused.
ghost use Rattle.std.specs.Prelude.{◌≡◌};
ghost use Rattle.workspace.specs.declared.refusal.TemplateRefusal.TheVariants.{Gate};

use gates::GateRefusal;

// The reasons, each with its number below.
#[derive(Clone, Copy, PartialEq, Eq, Debug)]
pub enum TemplateRefusal {
    // It has no line, or more than four.
    Lines,
    // It has fewer than two gates, or more than eight.
    Size,
    // One of its gates is refused for the template's lines.
    Gate(GateRefusal),
    // It has more than three groups, a group with fewer than two positions, or a position beyond its gates.
    Groups,
    // Run whole, it does not restore every state.
    Whole,
    // For some selection of its groups, the gates in none of the selected do not restore every state.
    Selection,
    // The shelf has no room for one more.
    ShelfFull,
    // The shelf has no entry of that number.
    NoSuchEntry,
}

// The refusal of one of the template's gates.
impl From<GateRefusal> for TemplateRefusal {
    ghost from_gives = { λ refusal r. r ≡ Gate refusal };

    fn from(refusal: GateRefusal) -> TemplateRefusal {
        TemplateRefusal::Gate(refusal)
    }
}
