// Steps of reduction and simplified proofs are defined in specs/, and their laws proved in proofs/. The code is in the
// crates `steps` and `simplify`.
#![tactic(auto)]
