// Policies, and the search that shows a policy all keys that occur, in rank order.
#![tactic(auto)]

mod branch;
pub mod candidates;
mod earliest;
mod key;
mod largest;
mod policies;
mod policy;
mod showing;
mod walk;

pub use earliest::Earliest;
pub use key::{KEY_SIZE, Key};
pub use largest::Largest;
pub use policies::policy_laws;
pub use policy::{Policy, Reply, Shown};
pub use walk::{Found, Problem, choose};
