// No code that runs: what is promised of the definitions of the library, stated in specs/, proved in proofs/.
#![tactic(auto)]
