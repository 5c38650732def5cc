// What the parts of the judge and of the lister promise one another, in terms of `matcher` and `search`. No code.
#![tactic(auto)]
