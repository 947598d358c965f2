// A leaf's page by itself: read it, and make an empty one. A page is a slice of its usable length. Nothing here knows another page.

#![tactic(auto)]

pub mod front; // the numbers before the slots, and an empty leaf made
pub mod cell; // a cell: its key and its value
pub mod find; // the slot of a key
