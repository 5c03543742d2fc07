// Tests of the crate `workspace`: proposals, each with the number that the rules give it, and edits between looks.
#![tactic(auto)]

#[cfg(test)]
mod allowed;
#[cfg(test)]
mod bench;
#[cfg(test)]
mod callers;
#[cfg(test)]
mod edits;
#[cfg(test)]
mod examples;
#[cfg(test)]
mod gate_list;
#[cfg(test)]
mod order;
#[cfg(test)]
mod refusals;
#[cfg(test)]
mod sweeps;
#[cfg(test)]
mod verdict;
