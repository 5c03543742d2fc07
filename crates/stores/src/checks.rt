// The checks that belong to no one store: of a line count, of a place, and of room.
ghost use Rattle.std.specs.Prelude.{◌≡◌};
ghost use Rattle.stores.specs.Memory.{made_lines};
ghost use Rattle.stores.specs.Stores.{lines_outcome, place_before_outcome, place_outcome, room_outcome};

use super::StoreRefusal;
use gates::WIDTH;

// Refuses a line count that is not 1 to 32.
pub fn check_lines(lines: u8) -> Result<(), StoreRefusal>
    ensures { result ≡ lines_outcome lines }
{
    if (1..=WIDTH).contains(&lines) {
        Ok(())
    } else {
        Err(StoreRefusal::Lines)
    }
}

// The line count of a store that is made: the one asked for, or 1 where the check refuses it.
pub(crate) fn made_lines(lines: u8) -> u8
    ensures { result ≡ made_lines lines }
{
    if check_lines(lines).is_ok() { lines } else { 1 }
}

// Refuses a place at which no gate of so many stands.
// Two checks of places: a gate can come in behind the last, but none stands there.
pub(crate) fn check_place(place: usize, count: usize) -> Result<(), StoreRefusal>
    ensures { result ≡ place_outcome place count }
{
    if place < count {
        Ok(())
    } else {
        Err(StoreRefusal::NoSuchPlace)
    }
}

// Refuses a place before which no gate can come into a list of so many; at the end one can.
pub(crate) fn check_place_before(place: usize, count: usize) -> Result<(), StoreRefusal>
    ensures { result ≡ place_before_outcome place count }
{
    if place <= count {
        Ok(())
    } else {
        Err(StoreRefusal::NoSuchPlace)
    }
}

// Refuses one gate more in a list that has as many as it can.
pub(crate) fn check_room(count: usize, capacity: usize) -> Result<(), StoreRefusal>
    ensures { result ≡ room_outcome count capacity }
{
    if count < capacity {
        Ok(())
    } else {
        Err(StoreRefusal::Full)
    }
}
