// Templates held: made of what is proposed, and read.
ghost use Rattle.std.specs.Prelude.{◌≡◌, ◌≤◌, [], length};
ghost use Rattle.workspace.specs.Proposals.{proposed, template_of};

use super::template::{MOST_GATES, MOST_GROUPS};
use super::{PositionSet, Proposal, Template};
use fixed_list::FixedList;
use gates::Gate;

impl Template {
    // A template of no gates, which no shelf counts.
    pub(super) fn blank() -> Template
        ensures { (template_of result).gates ≡ [] }
    {
        Template {
            lines: 0,
            gates: FixedList::new(Gate::BLANK),
            groups: FixedList::new(0),
        }
    }

    // What is proposed, held.
    pub(super) fn holding(proposal: &Proposal) -> Template
        requires few_gates { length proposal.now.gates.now ≤ MOST_GATES }
        requires few_groups { length proposal.now.groups.now ≤ MOST_GROUPS }
        ensures { template_of result ≡ proposed proposal.now }
    {
        Template {
            lines: proposal.lines,
            gates: FixedList::of(proposal.gates, Gate::BLANK),
            groups: FixedList::of(proposal.groups, 0),
        }
    }

    // The number of its lines.
    pub fn lines(&self) -> u8
        ensures { result ≡ (template_of self.now).lines }
    {
        self.lines
    }

    // The number of its gates.
    pub(crate) fn size(&self) -> usize
        ensures is { result ≡ length (template_of self.now).gates }
        ensures few { result ≤ MOST_GATES }
    {
        self.gates.len()
    }

    // Its gates.
    pub fn gates(&self) -> &[Gate]
        ensures is { result.now ≡ (template_of self.now).gates }
        ensures few { length result.now ≤ MOST_GATES }
    {
        self.gates.as_slice()
    }

    // Its listed groups.
    pub fn groups(&self) -> &[PositionSet]
        ensures is { result.now ≡ (template_of self.now).groups }
        ensures few { length result.now ≤ MOST_GROUPS }
    {
        self.groups.as_slice()
    }
}
