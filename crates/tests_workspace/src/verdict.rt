// What becomes of proposals.
use crate::gate_list::T0;
use gates::{Gate, GateKind};
use search::Earliest;
use std::process::Abort;
use stores::{PlainStore, Store};
use workspace::{PositionSet, Proposal, TemplateRefusal, Workspace, check_proposal};

// The lines, the gates and the groups of a proposal, and what has to become of it: no refusal, or one of that number.
pub type Case<'a> = (u8, &'a [Gate], &'a [PositionSet], Result<(), u8>);

// What becomes of the proposal on a bare shelf, and how many entries that then has.
fn shelved<S: Store + Drop>(store: S, proposal: &Proposal) -> (Result<(), u8>, usize) {
    let mut workspace = Workspace::new(store, Earliest {});
    let outcome = workspace.shelve(proposal);
    (
        outcome.map_err(TemplateRefusal::number),
        workspace.entry_count(),
    )
}

// Each proposal has its outcome, alone and on the bare shelf of a workspace of one line, which then counts it or does not.
pub fn expect<K: GateKind>(rt: &impl Abort, cases: &[Case]) {
    for (lines, gates, groups, expected) in cases.iter().copied() {
        let proposal = Proposal {
            lines,
            gates,
            groups,
        };
        let refusal = check_proposal::<K>(&proposal).err();
        let number = refusal.map(TemplateRefusal::number);
        assert_eq!(rt; number, expected.err(), "{gates:?} by {groups:?}");
        let mut records = [T0; 1];
        let store: PlainStore<K> = PlainStore::new(&mut records, 1);
        let entries = usize::from(expected.is_ok());
        assert_eq!(rt;
            shelved(store, &proposal),
            (expected, entries),
            "{gates:?} by {groups:?}"
        );
    }
}
