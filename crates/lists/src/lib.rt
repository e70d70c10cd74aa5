// Laws about lists and tests that the crates above share. No code: the laws are in specs/ and proofs/.
#![tactic(auto)]
