// The laws of the comparison of two contents, in specs/ and proofs/: Theorems states them. There is no code here.
#![tactic(auto)]
