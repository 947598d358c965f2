// Check as one walk over the pages: the walk as definitions (specs/), and that it accepts exactly what the model's `accepts` does.
// (A crate has a function, so this one has the smallest.)

#![tactic(auto)]

pub fn nothing() {}
