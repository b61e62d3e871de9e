// Counts of elements beside a document: on the tree, after an edit and its inverse, and within 0 to 8,192; laws, in specs/. There is no code
// here.
#![tactic(auto)]
