// Sets of positions in a template.
ghost use Rattle.std.specs.Prelude.{◌≡◌, ◌≤◌};
ghost use Rattle.gates.specs.Lines.{bit, where_below, width};
ghost use Rattle.workspace.specs.declared.template.TheConstants.{MOST_GATES};
ghost use Rattle.workspace.specs.TemplateTests.{group_test};
ghost use Rattle.workspace.specs.Templates.{outside_selected};

use super::PositionSet;
use gates::sets;

// Whether the position is in the set; one that no set can have is not.
// By `usize`, as positions and distances are counted; lines are `u8`.
pub(super) fn has_position(set: PositionSet, position: usize) -> bool
    ensures { result ≡ bit set position }
{
    u8::try_from(position).is_ok_and(|line| sets::has_line(set, line))
}

// Whether the set is a group of a template with so many gates: at least two positions, none beyond.
pub(super) fn is_group(set: PositionSet, size: usize) -> bool
    requires { size ≤ MOST_GATES }
    ensures { result ≡ group_test size set }
{
    set.count_ones() >= 2 && sets::is_below(set, size as u8)
}

// The positions in none of the selected groups; a selection is a set of the groups' places in the list.
pub(super) fn outside_selected(groups: &[PositionSet], selection: PositionSet) -> PositionSet
    ensures { result ≡ where_below width (outside_selected (bit selection) groups.now) }
{
    let mut selected: PositionSet = 0;
    for (place, group) in groups.iter().enumerate() {
        if has_position(selection, place) {
            selected |= *group;
        }
    }
    !selected
}
