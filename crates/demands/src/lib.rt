// The customer's demands as theorems: specs/Demands.antt states them, proofs/ proves them. There is no code here.
#![tactic(auto)]
