// The five edits on the tree: laws, in specs/. There is no code here.
#![tactic(auto)]
