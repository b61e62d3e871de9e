// Laws of the paper's words for lists, numbers and sets, in specs/. There is no code here.
#![tactic(auto)]
