// The theory of content models, in specs/ and proofs/: see proofs/Theorems.antt. There is no code here.
#![tactic(auto)]
