// The rules that a template meets, each with its test.
ghost use Rattle.std.specs.Prelude.{◌≡◌, ◌≤◌, if◌then◌else◌, length};
ghost use Rattle.gates.specs.Lines.{bit};
ghost use Rattle.workspace.specs.Proposals.{proposed, template_of};
ghost use Rattle.workspace.specs.Templates.{unselected};
ghost use Rattle.workspace.specs.TemplateTests.{gates_test, groups_test, lines_test, restores_test, selections_test, size_test, whole_test};

use super::template::{MOST_GATES, MOST_GROUPS, MOST_LINES};
use super::{PositionSet, Proposal, Template, positions, restoring};
use gates::{GateKind, GateRefusal, check_gate};

// Whether there are one to four lines.
pub(super) fn are_lines_few(proposal: &Proposal) -> bool
    ensures { result ≡ lines_test (proposed proposal.now) }
{
    (1..=MOST_LINES).contains(&proposal.lines)
}

// Whether there are two to eight gates.
pub(super) fn are_gates_few(proposal: &Proposal) -> bool
    ensures { result ≡ size_test (proposed proposal.now) }
{
    (2..=MOST_GATES).contains(&proposal.gates.len())
}

// Refuses a template of which a gate is not well formed for its lines.
pub(super) fn check_gates<K: GateKind>(proposal: &Proposal) -> Result<(), GateRefusal>
    ensures { result ≡ if gates_test K.means (proposed proposal.now) then Ok tt else Err GateRefusal.NotWellFormed }
{
    // A loop: `try_for_each` leaves its result open to the proof.
    for gate in proposal.gates {
        check_gate::<K>(*gate, proposal.lines)?;
    }
    Ok(())
}

// Whether there are at most three groups, each of at least two positions of the template.
pub(super) fn are_groups_sound(proposal: &Proposal) -> bool
    requires { length proposal.now.gates.now ≤ MOST_GATES }
    ensures { result ≡ groups_test (proposed proposal.now) }
{
    let size = proposal.gates.len();
    proposal.groups.len() <= MOST_GROUPS
        && proposal
            .groups
            .iter()
            .all(|group| positions::is_group(*group, size))
}

// Whether the gates in none of the selected groups restore every state of the template's lines.
fn does_part_restore<K: GateKind>(template: &Template, selection: PositionSet) -> bool
    requires { (template_of template.now).lines ≤ MOST_LINES }
    ensures { result ≡ restores_test K.means (template_of template.now).lines (unselected (bit selection) (template_of template.now)) }
{
    let chosen = positions::outside_selected(template.groups(), selection);
    restoring::do_chosen_restore::<K>(template.gates(), chosen, template.lines())
}

// Whether the whole template restores every state of its lines.
pub(super) fn does_whole_restore<K: GateKind>(template: &Template) -> bool
    requires { (template_of template.now).lines ≤ MOST_LINES }
    ensures { result ≡ whole_test K.means (template_of template.now) }
{
    does_part_restore::<K>(template, 0)
}

// Whether, for every selection of the groups, the gates in none of the selected do.
pub(super) fn do_selections_restore<K: GateKind>(template: &Template) -> bool
    requires { (template_of template.now).lines ≤ MOST_LINES }
    ensures { result ≡ selections_test K.means (template_of template.now) }
{
    let selections = 1u32 << template.groups().len();
    (0..selections).all(|selection| does_part_restore::<K>(template, selection))
}
