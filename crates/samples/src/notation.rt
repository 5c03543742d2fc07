// Gates in the notation of the rules, as constants.

// A Toffoli gate by its target, as `gate!(t 3 +0 +1 -2)`, or a Fredkin gate by its two lines, as `gate!(f 0 1 +3)`; the
// positive controls come before the negative ones.
#[macro_export]
macro_rules! gate {
    (t $target:literal $(+ $plus:literal)* $(- $minus:literal)*) => {
        $crate::Gate {
            a: $target,
            b: 0,
            positive: 0 $(| 1 << $plus)*,
            negative: 0 $(| 1 << $minus)*,
        }
    };
    (f $one:literal $other:literal $(+ $plus:literal)* $(- $minus:literal)*) => {
        $crate::Gate {
            a: $one,
            b: $other,
            positive: 0 $(| 1 << $plus)*,
            negative: 0 $(| 1 << $minus)*,
        }
    };
}
