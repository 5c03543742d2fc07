// Lists of at most so many items, which lie in an array of their own: they are copied whole and need no allocator.
#![tactic(auto)]

mod calls;
mod fixed_list;

pub use calls::Full;
pub use fixed_list::FixedList;
