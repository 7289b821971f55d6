// Definitions and laws that belong to no one subject. It has no code: specs/ and proofs/ are what other crates cite.
#![tactic(auto)]
