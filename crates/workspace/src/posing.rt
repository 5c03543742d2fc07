// A template posed: its gates directed, rotated and flipped, each with its position.
ghost use Rattle.std.specs.Prelude.{◌≡◌, ◌<◌, length, slice_index_or};
ghost use Rattle.fixed_list.specs.Lists.{contents};
ghost use Rattle.gates.specs.Cascades.{flipped_or};
ghost use Rattle.workspace.specs.Matching.{posed};
ghost use Rattle.workspace.specs.Posing.{directed_gate, placed_of, source_place};
ghost use Rattle.workspace.specs.Proposals.{template_of};
ghost use Rattle.workspace.specs.Turns.{Placed, at_position};

use super::Template;
use super::posed::{Member, Pose, Posed};
use fixed_list::FixedList;
use gates::{Gate, GateKind};

// The gate in its direction: inverted where the template is turned backward.
pub(crate) fn direct<K: GateKind>(gate: Gate, back: bool) -> Gate
    ensures { result ≡ directed_gate K.means back gate }
{
    if back { K::inverse(gate) } else { gate }
}

// The gate in its direction, flipped where it can be.
fn pose_gate<K: GateKind>(gate: Gate, pose: Pose) -> Gate
    ensures { result ≡ flipped_or K.means pose.flips (directed_gate K.means pose.back gate) }
{
    let directed = direct::<K>(gate, pose.back);
    K::flipped(directed, pose.flips).unwrap_or(directed)
}

// The position of the gate that comes to a place of so many, where they are posed.
fn find_source(size: usize, pose: Pose, place: usize) -> usize
    requires { place < size }
    ensures is { result ≡ source_place size pose.back pose.rotation place }
    ensures within { result < size }
{
    let ahead = size.saturating_sub(pose.rotation);
    let directed = if place < ahead {
        pose.rotation + place
    } else {
        place - ahead
    };
    if pose.back {
        size - 1 - directed
    } else {
        directed
    }
}

// The gate that comes to a place of the template as it is posed.
pub(crate) fn pose_member<K: GateKind>(template: &Template, pose: Pose, place: usize) -> Member
    requires { place < length (template_of template.now).gates }
    ensures { (blank : Placed) → at_position result.position result.gate ≡ slice_index_or (posed K.means (template_of template.now) pose.back pose.rotation pose.flips) place blank }
{
    let gates = template.gates();
    let position = find_source(gates.len(), pose, place);
    Member {
        position,
        gate: pose_gate::<K>(gates[position], pose),
    }
}

// The template's gates directed, rotated and flipped, still on its own lines.
pub(crate) fn pose<K: GateKind>(template: &Template, pose: Pose) -> Posed
    ensures { placed_of (contents result) ≡ posed K.means (template_of template.now) pose.back pose.rotation pose.flips }
{
    let mut members = FixedList::new(Member::BLANK);
    for place in 0..template.size() {
        let _ = members.push(pose_member::<K>(template, pose, place));
    }
    members
}
