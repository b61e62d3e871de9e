// A fault that is met in a DTD text stays, whatever follows: laws, in specs/. There is no code here.
#![tactic(auto)]
