// No code that runs: the steps of a schedule one after another, over any machine, what is counted of them, and the laws of the loop that
// takes them.
#![tactic(auto)]
