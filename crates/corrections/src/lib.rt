// Regulations 29, 30 and 31, a module for each; before_sheer puts 29 and 30 on the table's freeboard. L is a Length, other lengths are Spans, E is an
// Effective. L and E come as two numbers: a struct of both would be taken apart in the first line of each function.
#![tactic(auto)]

pub mod before_sheer;
pub mod depth;
pub mod fullness;
pub mod short;
