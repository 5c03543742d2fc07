// Proposals checked against the rules, which are tried in order.
ghost use Rattle.std.specs.Prelude.{◌≡◌, IfOk};
ghost use Rattle.std.specs.Result.{result_err};
ghost use Rattle.workspace.specs.Proposals.{proposed, template_of};
ghost use Rattle.workspace.specs.TemplateTests.{AnswersRules, RuleLaws, template_test};

use super::{Proposal, Template, TemplateRefusal, rules};
use gates::GateKind;

// The template that is proposed, where it meets the rules; else the refusal of the first rule that it breaks.
pub fn check_proposal<K: GateKind>(proposal: &Proposal) -> Result<Template, TemplateRefusal>
    ensures answers { result_err result ≡ template_test K.means (proposed proposal.now) }
    ensures holds { IfOk result (λ t. template_of t ≡ proposed proposal.now) }
    ensures lawful { AnswersRules K.means (proposed proposal.now) (result_err result) }
{
    if !rules::are_lines_few(proposal) {
        return Err(TemplateRefusal::Lines);
    }
    if !rules::are_gates_few(proposal) {
        return Err(TemplateRefusal::Size);
    }
    rules::check_gates::<K>(proposal)?;
    if !rules::are_groups_sound(proposal) {
        return Err(TemplateRefusal::Groups);
    }
    // The rules that are left are tried on the template as it is held.
    let template = Template::holding(proposal);
    if !rules::does_whole_restore::<K>(&template) {
        return Err(TemplateRefusal::Whole);
    }
    if !rules::do_selections_restore::<K>(&template) {
        return Err(TemplateRefusal::Selection);
    }
    Ok(template)
}

// The laws of the rules: each test decides its rule, for every kind.
pub fn rule_laws<K: GateKind>()
    ensures { RuleLaws K.means }
{}
