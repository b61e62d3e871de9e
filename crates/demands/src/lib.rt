// The demands, of the calls that a host runs, in specs/. There is no code here.
#![tactic(auto)]
