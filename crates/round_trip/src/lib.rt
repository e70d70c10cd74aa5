// No code: what is written is read, and what was read is written again, over whole layouts and all their pages.
#![tactic(auto)]
