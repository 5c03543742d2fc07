// The numbers of refusals.
ghost use Rattle.std.specs.Prelude.{◌≡◌};
ghost use Rattle.workspace.specs.Refusals.{template_refusal_number};

use super::TemplateRefusal;

impl TemplateRefusal {
    // The refusal's number, by which users know it.
    pub fn number(self) -> u8
        ensures { result ≡ template_refusal_number self }
    {
        match self {
            TemplateRefusal::Lines => 1,
            TemplateRefusal::Size => 5,
            TemplateRefusal::Gate(refusal) => refusal.number(),
            TemplateRefusal::Groups => 7,
            TemplateRefusal::Whole => 6,
            TemplateRefusal::Selection => 8,
            TemplateRefusal::ShelfFull => 4,
            TemplateRefusal::NoSuchEntry => 9,
        }
    }
}
