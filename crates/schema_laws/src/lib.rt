// Which files are schemas: laws, in specs/ and proofs/. There is no code here.
#![tactic(auto)]
