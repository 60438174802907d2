// No function: runs of calls on any machine, and what can be said of one cell of it. The theorems are in proofs/.

#![tactic(auto)]
