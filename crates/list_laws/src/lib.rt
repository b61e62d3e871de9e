// Lists of edits: which lists of numbers are edits, and which single calls a list is; laws, in specs/. There is no code here.
#![tactic(auto)]
