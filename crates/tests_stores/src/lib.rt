// Tests of the crate `stores`: fixed sequences of calls on piles of mounts, beside a list that lies in a `FixedList` and is kept by rules written here for the tests alone.
#![tactic(auto)]

#[cfg(test)]
mod drive;
#[cfg(test)]
mod kinds;
#[cfg(test)]
mod makings;
#[cfg(test)]
mod moves;
#[cfg(test)]
mod pile;
#[cfg(test)]
mod piles;
#[cfg(test)]
mod refusals;
#[cfg(test)]
mod slow_list;
#[cfg(test)]
mod source;
