// Tests of the crate `gates` by brute force, against slow rules that are written here for the tests alone.
#![tactic(auto)]

#[cfg(test)]
mod cases;
#[cfg(test)]
mod laws;
#[cfg(test)]
mod pairs;
#[cfg(test)]
mod rules;
#[cfg(test)]
mod slow;
#[cfg(test)]
mod states;
#[cfg(test)]
mod values;
