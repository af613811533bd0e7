// The figures of document 01 in one table (specs/Figures.antt), with one proved claim (proofs/Claim.antt). No function.
#![tactic(auto)]
