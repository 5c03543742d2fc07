// Policies: what decides, among the occurrences that a sweep finds, which one is replaced.
ghost use Rattle.std.specs.Prelude.{◌≡◌, ℕ, List};
ghost use Rattle.search.specs.Policy.{PolicyMeaning, TakesFirst};

// What a policy is shown of an occurrence: the gates that it saves, its first place, and the number of its template.
#[derive(Clone, Copy, PartialEq, Eq, Debug)]
pub struct Shown {
    pub saved: usize,
    pub place: usize,
    pub template: usize,
}

// What a policy says to an occurrence: leave it, take it in place of the one taken before, or take it and look no further.
#[derive(Clone, Copy, PartialEq, Eq, Debug)]
pub enum Reply {
    Leave,
    Take,
    Close,
}

// A policy keeps some numbers; what it says, and what it keeps then, follow from these and from what it is shown.
pub trait Policy {
    ghost rule: { PolicyMeaning };

    ghost kept: { Self → List ℕ };

    // Forgets all that was shown.
    fn clear(&mut self)
        ensures { kept self.new ≡ rule.cleared };

    // Says what to do with one more occurrence.
    fn show(&mut self, shown: Shown) -> Reply
        ensures says { result ≡ rule.reply (kept self.old) shown }
        ensures keeps { kept self.new ≡ rule.next (kept self.old) shown };

    ghost takes_first: { TakesFirst rule };
}
