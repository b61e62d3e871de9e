// What is promised, in specs/: Statements says it; Theorems, in proofs/, cites its proof. There is no code here.
#![tactic(auto)]
