// What lines outside the map ask for: controls for the gates of a group.
ghost use Rattle.std.specs.Prelude.{◌≡◌, suc, length};
ghost use Rattle.gates.specs.declared.gate.Sign.{Sign as SignMeaning};
ghost use Rattle.workspace.specs.Extensions.{answer_of, found_as, signed};
ghost use Rattle.workspace.specs.Occurrences.{asks, fits_group, lowest, some_has_lem};
ghost use Rattle.workspace.specs.Posing.{placed_of};
ghost use Rattle.workspace.specs.Turns.{in_listed, member};

use super::posed::Member;
use super::{PositionSet, positions};
use gates::{Gate, Sign, sets};

// A control that is added: its line, its sign, and the number of the group whose gates get it.
#[derive(Clone, Copy)]
pub(crate) struct Addition {
    pub(crate) line: u8,
    pub(crate) sign: Sign,
    pub(crate) group: usize,
}

// Why a line is refused: no group can give what it asks for.
#[derive(Clone, Copy)]
pub(crate) struct NoGroup {}

// Whether the position is in the group at that place of the list.
fn is_listed(groups: &[PositionSet], place: usize, position: usize) -> bool
    ensures { result ≡ in_listed groups.now place position }
{
    groups
        .get(place)
        .is_some_and(|group| positions::has_position(*group, position))
}

// Whether the position is in the group of that number: group 0 is the whole template, the listed groups count from 1.
pub(crate) fn is_member(groups: &[PositionSet], number: usize, position: usize) -> bool
    ensures { result ≡ member groups.now number position }
{
    number
        .checked_sub(1)
        .is_none_or(|place| is_listed(groups, place, position))
}

// Whether the line is a control of this sign.
fn is_signed(gate: Gate, sign: Sign, line: u8) -> bool
    ensures { result ≡ signed sign gate line }
{
    match sign {
        Sign::Positive => sets::has_line(gate.positive, line),
        Sign::Negative => sets::has_line(gate.negative, line),
    }
}

// Whether the line is a control of this sign of one of the gates.
fn some_has(chosen: &[Member], sign: Sign, line: u8) -> bool
    ensures { result ≡ some_has_lem sign (placed_of chosen.now) line }
{
    chosen
        .iter()
        .any(|chosen| is_signed(chosen.gate, sign, line))
}

// Where lines ask: the table of the map, the groups, and the chosen gates, each with its position.
#[derive(Clone, Copy)]
pub(crate) struct Asking<'a> {
    pub(crate) table: &'a [u8],
    pub(crate) groups: &'a [PositionSet],
    pub(crate) chosen: &'a [Member],
}

impl<'a> Asking<'a> {
    // Whether the gates of the group are exactly those that have the line as a control.
    fn does_group_fit(&self, line: u8, number: usize) -> bool
        ensures { result ≡ fits_group self.now.groups.now (placed_of self.now.chosen.now) line number }
    {
        self.chosen.iter().all(|chosen| is_member(self.groups, number, chosen.position)
            == chosen.gate.has_control(line))
    }

    // The lowest group that fits.
    fn find_group(&self, line: u8) -> Option<usize>
        ensures { (sign : SignMeaning) → found_as sign result ≡ lowest (fits_group self.now.groups.now (placed_of self.now.chosen.now) line) sign 0 (suc (length self.now.groups.now)) }
    {
        (0..self.groups.len() + 1).find(|number| self.does_group_fit(line, *number))
    }

    // What the line asks for: nothing where it is in the map or no control, else a control of the sign on which all agree.
    pub(crate) fn ask(&self, line: u8) -> Result<Option<Addition>, NoGroup>
        ensures { result ≡ answer_of line (asks self.now.table.now self.now.groups.now (placed_of self.now.chosen.now) line) }
    {
        if self.table.contains(&line) {
            return Ok(None);
        }
        let is_positive = some_has(self.chosen, Sign::Positive, line);
        let is_negative = some_has(self.chosen, Sign::Negative, line);
        let sign = match (is_positive, is_negative) {
            (true, true) => return Err(NoGroup {}),
            (true, false) => Sign::Positive,
            (false, true) => Sign::Negative,
            (false, false) => return Ok(None),
        };
        let group = self.find_group(line).ok_or(NoGroup {})?;
        Ok(Some(Addition { line, sign, group }))
    }
}
