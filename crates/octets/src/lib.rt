// The byte layer: it knows numbers, runs of bytes and the order of keys, and nothing of pages.
// Every function says what it wrote by `over` and what it read by `part` or a number there (specs/Runs.antt, specs/Numbers.antt).

#![tactic(auto)]

pub mod places; // a page number, a slot number and a byte offset, three kinds that are not to be mixed up
pub mod numbers; // little-endian numbers of 16 and 32 bits, and page numbers
pub mod runs; // a run of bytes zeroed, copied in, moved, tested for zeros
pub mod keys; // how two keys compare
