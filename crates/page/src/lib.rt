// One page by itself, a module for each kind but leaves (crate `leaf`): read it, test it, change it. A page is a slice of its usable length.
// Nothing here knows another page. Contracts are in the model's words: what the bytes are read as (`of..`), and what they are
// written as (`to..`, crates/model/specs/Layouts.antt). Whether a page follows the rule of its kind by itself is one call for each kind.
// A function says how long its page has to be: a struct that kept slice and bound would be two for each kind, one that reads and one
// that writes, and each call would first build it from the part of the image that the page is.

#![tactic(auto)]

pub mod kind; // what a page is
pub mod header; // page 0: its numbers read, written, and whether it is one (`is_header`)
pub mod free; // a page of the free list: the next one, made of any page, `is_free`
pub mod overflow; // a page of a value's chain: the next one and the bytes held, made of any page, `is_overflow`
pub mod inner; // an inner node's page: children and separators, records put in, taken out and moved, `is_inner`
