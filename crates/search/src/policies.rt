// What the policies single out.
ghost use Rattle.search.specs.Policies.{PolicyLaws};

// Of the occurrences that they are shown in order, one policy singles out the first, the other the first of those that save most.
pub fn policy_laws()
    ensures { PolicyLaws }
{}
