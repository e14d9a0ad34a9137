// Definitions over lists, numbers and bits that every other crate cites, with their laws. There is no code here.
#![tactic(auto)]
