// The papers' formula for the summer mark, worked with signed fractions: definitions and theorems, no function.
#![tactic(auto)]
