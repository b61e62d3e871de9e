// A function's contract as a relation, in specs/: which inputs it takes, and which outcomes it allows. There is no code here.
#![tactic(auto)]
