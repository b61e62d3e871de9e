// Rename a panel: how the edits of a group are worked, and what a group comes to; laws, in specs/. There is no code here.
#![tactic(auto)]
