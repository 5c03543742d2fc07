// Whether a template can be turned as a key says.
ghost use Rattle.std.specs.Prelude.{◌≡◌, is_some};
ghost use Rattle.workspace.specs.Naming.{occurrence_of};
ghost use Rattle.workspace.specs.Proposals.{template_of};
ghost use Rattle.workspace.specs.TemplateTests.{all_pass};
ghost use Rattle.workspace.specs.Turns.{directed, placed};
ghost use Rattle.workspace.specs.TurnTests.{distinct, table_test, turn_test};

use super::Template;
use super::named::Named;
use super::posed::Pose;
use super::posing::direct;
use gates::{Gate, GateKind, WIDTH, sets};

// Whether each gate, in its direction, has a flipped form.
fn are_flippable<K: GateKind>(gates: &[Gate], pose: Pose) -> bool
    ensures { result ≡ all_pass (λ x. is_some (K.means.flipped pose.flips x.gate)) (directed K.means pose.back (placed gates.now)) }
{
    gates.iter().all(|gate| K::flipped(direct::<K>(*gate, pose.back), pose.flips).is_some())
}

// Whether no line is in the table twice.
fn are_distinct(table: &[u8]) -> bool
    ensures { result ≡ distinct table.now }
{
    table
        .iter()
        .enumerate()
        .all(|(place, line)| !table[place + 1..].contains(line))
}

// Whether the table takes so many lines to different ones of `lines`.
fn is_table(table: &[u8], from: u8, lines: u8) -> bool
    ensures { result ≡ table_test from lines table.now }
{
    let are_lines = table.iter().all(|line| *line < lines);
    lines <= WIDTH && table.len() == usize::from(from) && are_lines && are_distinct(table)
}

// Whether the turn that is named is one of the template onto so many lines.
pub(crate) fn is_turn<K: GateKind>(lines: u8, template: &Template, named: &Named) -> bool
    ensures { result ≡ turn_test K.means lines (template_of template.now) (occurrence_of named.now).turn }
{
    named.pose.rotation < template.size()
        && sets::is_below(named.pose.flips, template.lines())
        && are_flippable::<K>(template.gates(), named.pose)
        && is_table(named.table.as_slice(), template.lines(), lines)
}
