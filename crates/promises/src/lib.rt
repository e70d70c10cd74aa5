// No code: the promises of the library. `proofs/Promises.antt` is to be read first.
#![tactic(auto)]
