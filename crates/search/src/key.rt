// Keys: lists of numbers, by which what is searched for is named and ranked.
ghost use Rattle.std.specs.Prelude.{◌≡◌, ◌≤◌, [], length, slice_index};
ghost use Rattle.search.specs.Keys.{keyed, with_number};

use fixed_list::FixedList;

// How many numbers a key can have.
pub const KEY_SIZE: usize = 24;

// A list of at most `KEY_SIZE` numbers.
#[derive(Clone, Copy)]
pub struct Key {
    numbers: FixedList<u16, KEY_SIZE>,
}

impl Key {
    // The key of no numbers.
    pub(crate) fn new() -> Key
        ensures { keyed result ≡ [] }
    {
        Key {
            numbers: FixedList::new(0),
        }
    }

    // The numbers, in order.
    pub fn as_slice(&self) -> &[u16]
        ensures is { result.now ≡ keyed self.now }
        ensures few { length result.now ≤ KEY_SIZE }
    {
        self.numbers.as_slice()
    }

    // How many numbers the key has.
    pub fn len(&self) -> usize
        ensures is { result ≡ length (keyed self.now) }
        ensures few { result ≤ KEY_SIZE }
        ensures wide { length self.now.numbers.items ≡ KEY_SIZE }
    {
        self.numbers.len()
    }

    // The number at that place; 0 where there is none.
    pub fn at(&self, place: usize) -> u16
        ensures { result ≡ slice_index (keyed self.now) place }
    {
        self.as_slice().get(place).copied().unwrap_or(0)
    }

    // The key with one number more; a full key stays as it is.
    pub(crate) fn with(&self, number: u16) -> Key
        ensures { keyed result ≡ with_number (keyed self.now) number }
    {
        let mut longer = *self;
        let _ = longer.numbers.push(number);
        longer
    }
}
