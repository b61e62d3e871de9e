// Laws of documents: shape, trees, splices and edits, in specs/: see specs/EditJudged.antt. There is no code here.
#![tactic(auto)]
