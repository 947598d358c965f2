// The meaning of the store: document 01 as definitions that compute, in specs/. There is no code for the board here.
// (A crate has a function, so this one has the smallest.)

#![tactic(auto)]

pub fn nothing() {}
