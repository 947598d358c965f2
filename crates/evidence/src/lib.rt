// Evidence against misreading: what the definitions give on larger stores, at refusals and on damaged images, by computation. The
// expected numbers come from an implementation that shares nothing with the definitions (host/ordinary).
// (A crate has a function, so this one has the smallest.)

#![tactic(auto)]

pub fn nothing() {}
