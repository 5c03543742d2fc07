// The 16 states of four lines, which two rules lead to the same.
use crate::values::Values;
use std::fmt;
use std::process::Abort;

// The two lead from each of the 16 states to the same values; `case` tells what they are of.
pub(crate) fn check_same<C: fmt::Debug, F: Fn(Values) -> Values, G: Fn(Values) -> Values>(
    rt: &impl Abort,
    case: &C,
    one: F,
    other: G,
)
    requires one { F.IsAlwaysCallable one }
    requires other { G.IsAlwaysCallable other }
{
    for state in 0..16u32 {
        let values = Values::from(state);
        assert_eq!(rt; one(values), other(values), "{case:?} at {state}");
    }
}
