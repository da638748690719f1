// No code that runs: that each public call of the library takes every input, and that its promise determines its answer and its lent
// buffer.
#![tactic(auto)]
