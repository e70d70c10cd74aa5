// No code: what a call of growth gives, and what holds over every list of calls.
#![tactic(auto)]
