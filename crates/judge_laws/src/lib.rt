// Validity and the judgement: laws, in specs/. There is no code here.
#![tactic(auto)]
