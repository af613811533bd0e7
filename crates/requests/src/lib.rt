// The figures of document 02 in one table (specs/Requests.antt), with one proved claim (proofs/Claim.antt). No function.
#![tactic(auto)]
