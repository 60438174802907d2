// Demand 3 and the persistence rules, over runs of calls: specs/ says what a run is, proofs/ what holds of it. Nothing here runs.

#![tactic(auto)]
