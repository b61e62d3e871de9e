// What the schema of item 4's text is, and how its file is judged by: laws, in specs/. There is no code here.
#![tactic(auto)]
