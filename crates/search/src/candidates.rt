// Sets of numbers below 64, as a step of the search takes them: number i is in the set where the bit of weight 2^i is 1.
// A set is a plain `u64`: a struct around it would have to write anew the `&` and `|` by which problems put sets together.
ghost use Rattle.std.specs.Prelude.{◌≡◌, ℕ, ◌<◌, ◌||◌, ◌==◌, List, nat_lt};
ghost use Rattle.std.specs.Iterator.{YieldsFirst, item_count};
ghost use Rattle.gates.specs.Lines.{bit};
ghost use Rattle.search.specs.Sets.{numbers_in};

use std::marker::Model;

// The set with one number more; one from 64 on is in no set. In 64 bits, since a next number can be above 31.
pub fn with_number(set: u64, number: usize) -> u64
    ensures { (i : ℕ) → i < 64 → bit result i ≡ (i == number || bit set i) }
{
    if number < 64 {
        set | (1 << number)
    } else {
        set
    }
}

// The numbers below `count`.
pub fn numbers_below(count: usize) -> u64
    ensures { (i : ℕ) → i < 64 → bit result i ≡ nat_lt i count }
{
    if count < 64 {
        (1 << count) - 1
    } else {
        u64::MAX
    }
}

// The numbers of a set, in rising order.
#[derive(Drop)]
pub struct Numbers {
    rest: u64,
}

impl Model for Numbers {
    ghost Value = { List ℕ };

    ghost view = { λ numbers. numbers_in numbers.rest };
}

impl Numbers {
    // Those of the set.
    pub fn of(set: u64) -> Numbers
        ensures { result ≡ numbers_in set }
    {
        Numbers { rest: set }
    }
}

impl Iterator for Numbers {
    type Item = u16;

    ghost next_gives = { YieldsFirst (λ rest. rest) };

    ghost remaining = { item_count (λ rest. rest) };

    // The lowest number that is left, which is taken out.
    fn next(&mut self) -> Option<u16> {
        if self.rest == 0 {
            return None;
        }
        let lowest = self.rest.trailing_zeros();
        self.rest ^= 1 << lowest;
        Some(lowest as u16)
    }
}
