// Laws on tests, numbers and lists that every other crate may use, in specs/. There is no code here.
#![tactic(auto)]
