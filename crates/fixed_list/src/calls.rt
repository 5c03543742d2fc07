// The calls of a list.
ghost use Rattle.std.specs.Prelude.{◌≡◌, ◌<◌, ◌≤◌, [], length, take, slice_get};
ghost use Rattle.std.specs.List.{AllZip};
ghost use Rattle.std.specs.Iterator.{IsFinite};
ghost use Rattle.fixed_list.specs.Lists.{Changed, Collected, contents, push_outcome, pushed, removed};

use super::FixedList;

// Why an item is refused: the list has `N` already.
#[derive(Clone, Copy, PartialEq, Eq, Debug)]
pub struct Full {}

impl<T: Copy, const N: usize> FixedList<T, N> {
    // The list of no items; the blank fills the array.
    pub fn new(blank: T) -> FixedList<T, N>
        ensures { contents result ≡ [] }
    {
        FixedList {
            items: [blank; N],
            count: 0,
        }
    }

    // The list of the items of a slice, those beyond the first `N` left out.
    pub fn of(slice: &[T], blank: T) -> FixedList<T, N>
        ensures { contents result ≡ take N slice.now }
    {
        let mut items = [blank; N];
        let count = slice.len().min(N);
        items[..count].copy_from_slice(&slice[..count]);
        FixedList { items, count }
    }

    // The list of the items that an iterator gives, those beyond the first `N` left out.
    pub fn collected<I: Iterator<Item = T> + Drop>(items: I, blank: T) -> FixedList<T, N>
        requires can { I.can_next items }
        requires ends { IsFinite (I.remaining items) }
        ensures { Collected I.next_gives items N (contents result) }
    {
        let mut collected = FixedList::new(blank);
        for item in items {
            let _ = collected.push(item);
        }
        collected
    }

    // How many items the list has.
    pub fn len(&self) -> usize
        ensures is { result ≡ length (contents self.now) }
        ensures few { result ≤ N }
        ensures wide { length self.now.items ≡ N }
    {
        self.as_slice().len()
    }

    // The items, in order.
    pub fn as_slice(&self) -> &[T]
        ensures is { result.now ≡ contents self.now }
        ensures few { length result.now ≤ N }
    {
        &self.items[..self.count.min(N)]
    }

    // Puts an item behind the others, where there is room.
    pub fn push(&mut self, item: T) -> Result<(), Full>
        ensures answers { result ≡ push_outcome N (contents self.old) }
        ensures leaves { contents self.new ≡ pushed N (contents self.old) item }
    {
        if self.count >= N {
            return Err(Full {});
        }
        self.items[self.count] = item;
        self.count += 1;
        Ok(())
    }

    // Takes the item at a place out, where there is one; those behind it move up.
    pub fn remove(&mut self, place: usize) -> Option<T>
        ensures answers { result ≡ slice_get (contents self.old) place }
        ensures leaves { contents self.new ≡ removed (contents self.old) place }
    {
        let count = self.len();
        if place >= count {
            return None;
        }
        let item = self.items[place];
        self.items.copy_within(place + 1..count, place);
        self.count = count - 1;
        Some(item)
    }

    // The list of what each item is turned into.
    pub fn map<U: Copy, F: Fn(T) -> U>(&self, blank: U, turn: F) -> FixedList<U, N>
        requires { F.IsAlwaysCallable turn }
        ensures { AllZip (F.post turn) (contents self.now) (contents result) }
    {
        // A loop: an array's `map` asks that its iterator fits in memory, which no `T` and `N` show here.
        let mut turned = FixedList::new(blank);
        for item in self.as_slice() {
            let _ = turned.push(turn(*item));
        }
        turned
    }

    // Turns each item into another, where it stands. What stands behind them is turned too: a loop of `N` turns can be laid out flat.
    pub fn turn_each<F: Fn(T) -> T>(&mut self, turn: F)
        requires { F.IsAlwaysCallable turn }
        ensures { AllZip (F.post turn) (contents self.old) (contents self.new) }
    {
        for place in 0..N {
            self.items[place] = turn(self.items[place]);
        }
    }

    // Changes the item at a place, where there is one. By a closure: a lent item would need a starred clause.
    pub fn change<F: FnOnce(&mut T)>(&mut self, place: usize, change: F)
        requires { F.IsAlwaysCallable change }
        ensures there { place < length (contents self.old) → Changed F.FnOnce change (contents self.old) place (contents self.new) }
        ensures beyond { length (contents self.old) ≤ place → self.new ≡ self.old }
    {
        if place < self.len() {
            let mut item = self.items[place];
            change(&mut item);
            self.items[place] = item;
        }
    }
}
