// How a model of item 4 is read without a stack of readers: laws, in specs/. There is no code here.
#![tactic(auto)]
