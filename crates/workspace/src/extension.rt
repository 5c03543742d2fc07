// A template turned onto the lines of a cascade, and extended by the controls that the chosen gates have beyond it.
ghost use Rattle.std.specs.Prelude.{◌≡◌, ◌≤◌, List, map, length};
ghost use Rattle.fixed_list.specs.Lists.{contents};
ghost use Rattle.gates.specs.declared.gate.Gate.{Gate as GateMeaning};
ghost use Rattle.workspace.specs.Extensions.{added_of, controlled_in, extended_by, posed_of, turned_by};
ghost use Rattle.workspace.specs.Naming.{occurrence_of};
ghost use Rattle.workspace.specs.Occurrences.{additions, asks, at_places, beside, gathered, places};
ghost use Rattle.workspace.specs.Posing.{placed_of};
ghost use Rattle.workspace.specs.Proposals.{template_of};
ghost use Rattle.workspace.specs.Turns.{at_position, placed, turned};

use super::asking::{Addition, Asking, NoGroup, is_member};
use super::named::Named;
use super::posed::{Member, Posed};
use super::posing::pose;
use super::{PositionSet, Template};
use fixed_list::FixedList;
use gates::{Gate, GateKind};

// The template turned, each gate with its position.
fn turn_template<K: GateKind>(template: &Template, named: &Named) -> Posed
    ensures { placed_of (contents result) ≡ turned K.means (occurrence_of named.now).turn (placed (template_of template.now).gates) }
{
    let table = named.table.as_slice();
    let posed = pose::<K>(template, named.pose);
    posed.map(
        Member::BLANK,
        |member| Member {
            gate: K::renamed(member.gate, table),
            ..member
        },
    )
}

// The gates, each with the position of the turned gate that it stands for.
fn stand_beside(turned: &Posed, gates: &[Gate]) -> Posed
    ensures { placed_of (contents result) ≡ beside (placed_of (contents turned.now)) gates.now }
{
    let pairs = turned.as_slice().iter().zip(gates);
    let standing = pairs.map(|(member, gate)| Member {
        gate: *gate,
        ..*member
    });
    FixedList::collected(standing, Member::BLANK)
}

// The gate with one more control, where its position is in the group.
fn control_member<K: GateKind>(member: Member, groups: &[PositionSet], addition: Addition) -> Member
    ensures { at_position result.position result.gate ≡ controlled_in K.means groups.now (added_of addition) (at_position member.position member.gate) }
{
    if is_member(groups, addition.group, member.position) {
        return Member {
            gate: K::controlled(member.gate, addition.line, addition.sign),
            ..member
        };
    }
    member
}

// The gates with one more control on those of the group.
fn control_group<K: GateKind>(posed: &Posed, groups: &[PositionSet], addition: Addition) -> Posed
    ensures { placed_of (contents result) ≡ map (controlled_in K.means groups.now (added_of addition)) (placed_of (contents posed.now)) }
{
    posed.map(
        Member::BLANK,
        |member| control_member::<K>(member, groups, addition),
    )
}

// The turned gates with the controls that the lines ask for; refused where a line asks for what no group can give.
fn add_controls<K: GateKind>(turned: &Posed, asking: &Asking, lines: u8) -> Result<Posed, NoGroup>
    ensures { posed_of result
        ≡ extended_by K.means asking.now.groups.now (placed_of (contents turned.now)) (gathered (asks asking.now.table.now asking.now.groups.now (placed_of asking.now.chosen.now)) lines) }
{
    let mut extended = *turned;
    for line in 0..lines {
        if let Some(addition) = asking.ask(line)? {
            extended = control_group::<K>(&extended, asking.groups, addition);
        }
    }
    Ok(extended)
}

// The template as the occurrence turns it, extended by the controls that it adds; refused where it can add none that fit the chosen gates.
pub(crate) fn extend<K: GateKind>(
    chosen: &[Gate],
    lines: u8,
    template: &Template,
    named: &Named,
) -> Result<Posed, NoGroup>
    ensures { (gates : List GateMeaning) → chosen.now ≡ at_places gates (places (occurrence_of named.now))
        → posed_of result ≡ turned_by K.means (template_of template.now) (occurrence_of named.now)
        (additions K.means lines gates (template_of template.now) (occurrence_of named.now)) }
{
    let turned = turn_template::<K>(template, named);
    let standing = stand_beside(&turned, chosen);
    let asking = Asking {
        table: named.table.as_slice(),
        groups: template.groups(),
        chosen: standing.as_slice(),
    };
    add_controls::<K>(&turned, &asking, lines)
}
