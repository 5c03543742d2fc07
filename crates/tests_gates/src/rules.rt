// The form test, the run and the target lines of every gate on four lines, against the slow rules.
use crate::cases::*;
use crate::slow::SlowKind;
use crate::values::Values;
use gates::{Fredkin, Gate, LineSet, Toffoli};
use std::process::Abort;
use std::test::Fail;

// The form test answers as the slow rule does for every record, on 3 and on 4 lines.
fn check_forms<K: SlowKind>(rt: &impl Abort) {
    for number in 0..RECORDS {
        let gate = record(number);
        let told = [3, 4].map(|lines| K::is_well_formed(gate, lines));
        let expected = [3, 4].map(|lines| K::is_formed(gate, lines));
        assert_eq!(rt; told, expected, "{number}");
    }
}

// The gate leads from each of the 16 states to where the slow rule does.
fn check_states<K: SlowKind>(rt: &impl Abort, gate: Gate) {
    for state in 0..16u32 {
        let expected = K::leads(gate, Values::from(state));
        assert_eq!(rt;
            K::run(gate, state),
            LineSet::from(expected),
            "{gate:?} at {state}"
        );
    }
}

// The lines of `targets` are those that the slow rule names.
fn check_targets<K: SlowKind>(rt: &impl Abort, gate: Gate) {
    let targets = Values::from(K::targets(gate));
    for line in 0..4u8 {
        assert_eq!(rt;
            targets.at(line),
            K::is_target(gate, line),
            "{gate:?} at {line}"
        );
    }
}

// Every gate that is well formed for four lines, of which there are so many, runs as the slow rule does.
fn check_runs<K: SlowKind>(rt: &(impl Abort + AllocGlobal), count: usize) -> Result<(), Fail> {
    check_each::<K, _, _>(rt, 4, count, |gate| {
        check_states::<K>(rt, gate);
        check_targets::<K>(rt, gate);
    })
}

#[test]
fn forms(rt: HostRuntime) {
    check_forms::<Toffoli>(&rt);
    check_forms::<Fredkin>(&rt);
}

// 4 targets, or 6 pairs, and for each other line: a positive control, a negative one, or none.
#[test]
fn runs(rt: HostRuntime) -> Result<(), Fail> {
    check_runs::<Toffoli>(&rt, 4 * 27)?;
    check_runs::<Fredkin>(&rt, 6 * 9)
}
