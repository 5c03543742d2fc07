// Proposals at the edges of the rules, which meet them all.
use crate::gate_list::*;
use crate::verdict::*;
use gates::{Fredkin, Toffoli};
use samples::FIVE;

// Four lines, which the workspace of one line does not have, and eight gates.
#[test]
fn largest_template(rt: HostRuntime) {
    expect::<Toffoli>(
        &rt,
        &[
            (4, &[T3, T3], &[], Ok(())),
            (4, &[T3, T3, T3, T3, T0, T0, T0, T0], &[15, 240], Ok(())),
        ],
    );
    expect::<Fredkin>(&rt, &[(4, &[F12; 8], &[], Ok(()))]);
}

// A group that is the whole template, equal groups, and three groups that overlap.
#[test]
fn unusual_groups(rt: HostRuntime) {
    expect::<Toffoli>(
        &rt,
        &[
            (1, &[T0, T0], &[3], Ok(())),
            (1, &[T0, T0], &[3, 3, 3], Ok(())),
            (1, &[T0; 4], &[3, 15, 12], Ok(())),
            (2, &FIVE, &[21, 21, 31], Ok(())),
        ],
    );
}
