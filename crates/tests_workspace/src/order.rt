// Proposals that break two rules: the refusals come in the order 1, 5, 2, 7, 6, 8.
use crate::gate_list::*;
use crate::verdict::*;
use gates::Toffoli;

// 1 before all others.
#[test]
fn lines_first(rt: HostRuntime) {
    expect::<Toffoli>(
        &rt,
        &[
            (5, &[], &[], Err(1)),
            (0, &[T0, T0], &[], Err(1)),
            (5, &[T0, T0], &[1], Err(1)),
            (5, &[T0, T1], &[], Err(1)),
            (5, &[T0; 4], &[3, 6], Err(1)),
        ],
    );
}

// 5 before 2, 7, 6 and 8.
#[test]
fn size_second(rt: HostRuntime) {
    expect::<Toffoli>(
        &rt,
        &[
            (1, &[OWN_CONTROL], &[], Err(5)),
            (1, &[], &[3], Err(5)),
            (1, &[T0], &[], Err(5)),
            (1, &[T0; 9], &[], Err(5)),
            (1, &[T0; 10], &[3, 6], Err(5)),
        ],
    );
}

// 2 before 7, 6 and 8.
#[test]
fn gates_third(rt: HostRuntime) {
    expect::<Toffoli>(
        &rt,
        &[
            (1, &[T1, T1], &[0], Err(2)),
            (1, &[OWN_CONTROL, T0], &[], Err(2)),
            (1, &[T1; 4], &[3, 6], Err(2)),
        ],
    );
}

// 7 before 6 and 8.
#[test]
fn groups_fourth(rt: HostRuntime) {
    expect::<Toffoli>(
        &rt,
        &[
            (2, &[T0, T1], &[0], Err(7)),
            (1, &[T0, T0], &[1], Err(7)),
            (1, &[T0, T0], &[3, 2], Err(7)),
        ],
    );
}

// 6 before 8.
#[test]
fn whole_fifth(rt: HostRuntime) {
    expect::<Toffoli>(
        &rt,
        &[
            (1, &[T0; 3], &[3], Err(6)),
            (2, &[T0, T1, T1], &[3], Err(6)),
        ],
    );
}
