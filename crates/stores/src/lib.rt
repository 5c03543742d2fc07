// Stores of gates: lists in memory that the caller lends, and views of other stores.
#![tactic(auto)]

mod checks;
mod gap;
mod laws;
mod memory;
mod plain;
mod rearrangement;
mod refusal;
mod renamed;
mod reversed;
mod store;
mod window;

pub use checks::check_lines;
pub use laws::store_laws;
pub use memory::{GapStore, PlainStore};
pub use plain::MOST;
pub use rearrangement::{Rearrangement, is_rearrangement};
pub use refusal::StoreRefusal;
pub use renamed::{Renamed, check_table};
pub use reversed::Reversed;
pub use store::Store;
pub use window::{Window, check_window};
