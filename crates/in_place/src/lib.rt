// No function: the eight slots, and what is fed to one, as `places` has them. The laws are in proofs/.

#![tactic(auto)]
