// The templates of the examples.
use crate::gate_list::*;
use crate::verdict::*;
use gates::{Fredkin, Toffoli};
use samples::FIVE;

// The pair, the five gates with two groups, and the five without their last gate.
#[test]
fn classic_templates(rt: HostRuntime) {
    expect::<Toffoli>(
        &rt,
        &[
            (1, &[T0, T0], &[], Ok(())),
            (2, &FIVE, &[], Ok(())),
            (2, &FIVE, &[21, 26], Ok(())),
            (2, &[T0_1, T1, T0_1, T1], &[], Err(6)),
        ],
    );
}

// Four inversions: the groups {0, 1} and {1, 2} leave one of them, each group alone leaves two.
#[test]
fn four_inversions(rt: HostRuntime) {
    expect::<Toffoli>(
        &rt,
        &[
            (1, &[T0; 4], &[3, 6], Err(8)),
            (1, &[T0; 4], &[3], Ok(())),
            (1, &[T0; 4], &[6], Ok(())),
        ],
    );
}

// Eight inversions: three groups leave one inversion, any two of them leave an even number.
#[test]
fn eight_inversions(rt: HostRuntime) {
    expect::<Toffoli>(
        &rt,
        &[
            (1, &[T0; 8], &[23, 43, 77], Err(8)),
            (1, &[T0; 8], &[23, 43], Ok(())),
            (1, &[T0; 8], &[23, 77], Ok(())),
            (1, &[T0; 8], &[43, 77], Ok(())),
        ],
    );
}

// Exchanges: twice the same, three that make a fourth, and what does not restore.
#[test]
fn exchanges(rt: HostRuntime) {
    expect::<Fredkin>(
        &rt,
        &[
            (2, &[F01, F01], &[], Ok(())),
            (3, &[F01, F12, F01, F02], &[15], Ok(())),
            (3, &[F01, F12, F01, F02], &[5], Err(8)),
            (3, &[F01, F12], &[], Err(6)),
            (2, &[F01, F01, F01], &[], Err(6)),
        ],
    );
}

// A record is of one kind: the exchange is no Toffoli gate, the inversion no Fredkin gate.
#[test]
fn kinds(rt: HostRuntime) {
    expect::<Toffoli>(&rt, &[(2, &[F01, F01], &[], Err(2))]);
    expect::<Fredkin>(&rt, &[(2, &[T0, T0], &[], Err(2))]);
}
