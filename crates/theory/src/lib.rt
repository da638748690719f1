// No code that runs: the bakery of source 002 for every number of processes, and the proof that its bounded form does on remainders what
// the unbounded one does.
#![tactic(auto)]
