// What sweeping and settling answer.

// A replacement that was made: the number of the template, the first place of what it replaced, and the gates that it saved.
#[derive(Clone, Copy, PartialEq, Eq, Debug)]
pub struct Replacement {
    pub template: usize,
    pub place: usize,
    pub saved: usize,
}

// How settling ended: nothing is left to replace, or the budget is used and something is left.
#[derive(Clone, Copy, PartialEq, Eq, Debug)]
pub enum Ending {
    Settled,
    Spent,
}

// What settling came to: how it ended, how many replacements it made, and the gates that these saved together.
#[derive(Clone, Copy, PartialEq, Eq, Debug)]
pub struct Settling {
    pub ending: Ending,
    pub replacements: usize,
    pub saved: usize,
}

// Why settling is refused.
#[derive(Clone, Copy, PartialEq, Eq, Debug)]
pub enum SettleRefusal {
    // The budget is above 4,096.
    Budget,
}
