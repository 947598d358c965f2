// One store behind an image: what is written is read back, and an image is accepted exactly if a valid store is written as it.
// (A crate has a function, so this one has the smallest.)

#![tactic(auto)]

pub fn nothing() {}
