// The rows of three tables: 27.1 of regulation 27, and 28.1 and 28.2 of regulation 28. Each has a `table` of its own, which ties its rows to its own definition.
#![tactic(auto)]

pub mod table27;
pub mod table28a;
pub mod table28b;
