// Sets of numbers below 64 by what a test says of them.
ghost use Rattle.std.specs.Prelude.{ℕ, ◌<◌, Bool, ◌&&◌, length, nat_lt};
ghost use Rattle.workspace.specs.Starts.{Answering, IsSet, at_distance};

use gates::Gate;
use search::candidates;

// The numbers below `count` of which the test holds; one from 64 on is in no set.
// A loop: of the test's answers only a relation is known, and that below `count` alone.
pub(crate) fn numbers_where<F: Fn(usize) -> bool>(count: usize, test: F) -> u64
    requires { (i : ℕ) → i < count → F.pre test i }
    ensures { (p : ℕ → Bool) → Answering (F.post test) count p → IsSet result (λ i. nat_lt i count && p i) }
{
    let mut set = 0;
    for number in 0..count {
        if test(number) {
            set = candidates::with_number(set, number);
        }
    }
    set
}

// The distances of the gates of which the test holds.
pub(crate) fn distances_where<F: Fn(Gate) -> bool>(gates: &[Gate], test: F) -> u64
    requires { F.IsAlwaysCallable test }
    ensures { (p : ℕ → Bool) → Answering (λ d. F.post test (at_distance gates.now d)) (length gates.now) p → IsSet result (λ d. nat_lt d (length gates.now) && p d) }
{
    numbers_where(gates.len(), |distance| test(gates[distance]))
}
