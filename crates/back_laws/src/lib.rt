// Step back: laws of the edit that takes an edit back, in specs/. There is no code here.
#![tactic(auto)]
