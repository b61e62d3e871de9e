// Laws of how the symbols of a model are written from right to left: see specs/Lib.antt. Assumes nothing.
#![tactic(auto)]
