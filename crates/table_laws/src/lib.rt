// Laws of schemas and their tables, in specs/ and proofs/: see proofs/Translated.antt. There is no code here.
#![tactic(auto)]
