// The cases of the small shade, and of a schema with fixed attributes, in specs/. There is no code here.
#![tactic(auto)]
