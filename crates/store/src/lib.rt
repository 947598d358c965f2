// The customer's calls. None asks anything of its caller: what a call can't take it refuses by the number of document 01's table.

#![tactic(auto)]

pub mod refusal; // the refusal numbers
pub mod lengths; // what the lengths alone refuse
