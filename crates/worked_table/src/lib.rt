// No code: document 01's examples a to m as one table, and further examples of growth.
#![tactic(auto)]
