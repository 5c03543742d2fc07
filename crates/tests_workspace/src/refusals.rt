// Proposals that break one rule alone.
use crate::gate_list::*;
use crate::verdict::*;
use gates::{Fredkin, Toffoli};
use samples::FIVE;

// 1: more than four lines. (A template of no lines breaks a second rule: it has no well-formed gate.)
#[test]
fn lines(rt: HostRuntime) {
    expect::<Toffoli>(
        &rt,
        &[
            (5, &[T0, T0], &[], Err(1)),
            (32, &[T0, T0], &[3], Err(1)),
            (255, &[T0, T0], &[], Err(1)),
        ],
    );
}

// 5: no gate, or more than eight. (One gate breaks a second rule: it does not restore.)
#[test]
fn size(rt: HostRuntime) {
    expect::<Toffoli>(&rt, &[(1, &[], &[], Err(5)), (1, &[T0; 10], &[], Err(5))]);
    expect::<Fredkin>(&rt, &[(2, &[F01; 10], &[3], Err(5))]);
}

// 2: a line beyond the template's, though the gates restore; a pair that is not in order.
#[test]
fn gates(rt: HostRuntime) {
    expect::<Toffoli>(
        &rt,
        &[
            (1, &[T1, T1], &[], Err(2)),
            (1, &[T0, T0, T1, T1], &[], Err(2)),
            (2, &[BOTH_SIGNS, BOTH_SIGNS], &[], Err(2)),
        ],
    );
    expect::<Fredkin>(
        &rt,
        &[(2, &[F10, F10], &[], Err(2)), (2, &[F12, F12], &[], Err(2))],
    );
}

// 7: four groups, a group of no position, a position beyond the gates.
#[test]
fn groups(rt: HostRuntime) {
    expect::<Toffoli>(
        &rt,
        &[
            (1, &[T0, T0], &[3, 3, 3, 3], Err(7)),
            (1, &[T0, T0], &[0], Err(7)),
            (1, &[T0, T0], &[3, 3, 7], Err(7)),
            (1, &[T0; 8], &[0x101], Err(7)),
            (1, &[T0; 8], &[0x8000_0001], Err(7)),
        ],
    );
}

// 6: the whole does not restore.
#[test]
fn whole(rt: HostRuntime) {
    expect::<Toffoli>(
        &rt,
        &[
            (2, &[T0, T1], &[], Err(6)),
            (2, &[T0_1, T0_1, T0_1], &[], Err(6)),
            (4, &[T3, T0, T0], &[], Err(6)),
        ],
    );
}

// 8: what a group leaves does not restore.
#[test]
fn selections(rt: HostRuntime) {
    expect::<Toffoli>(
        &rt,
        &[
            (2, &[T0, T0, T1, T1], &[6], Err(8)),
            (2, &[T0, T0, T1, T1], &[3, 12, 6], Err(8)),
            (2, &FIVE, &[5], Err(8)),
        ],
    );
}
