// Gates as they are written, and the gates of an example, for the program and for tests.
#![tactic(auto)]

mod examples;
mod notation;

pub use examples::{FIVE, FIVE_GROUPS};
pub use gates::Gate;

#[cfg(test)]
mod spelled;
