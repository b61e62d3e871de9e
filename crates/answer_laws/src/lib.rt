// Laws of answers, in specs/: which numbers each call can give. There is no code here.
#![tactic(auto)]
