// No code that runs: tests that compute, lists piece after piece, lent buffers, and their laws. Nothing here speaks of a table.
#![tactic(auto)]
