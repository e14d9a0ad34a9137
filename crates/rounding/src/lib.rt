// The order of rounded quotients, over whole numbers. There is no code here: proofs/ has the laws that `roads` cites.
#![tactic(auto)]
