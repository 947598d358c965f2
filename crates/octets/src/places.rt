// A page of an image, by its number; 0 as a reference means none. (No Option: what is read of a page is promised as its number, as
// by `free::next` and `overflow::next`, and a 0 where a page is due is refused like any other wrong number.)
#[derive(Clone, Copy, Debug, PartialEq, Eq)]
pub struct PageNo(pub u16);

// A slot of a leaf, counted from 0. (It is like an offset but for its name: document 01 wants three kinds, each a tuple struct of its own.)
#[derive(Clone, Copy, Debug, PartialEq, Eq)]
pub struct Slot(pub usize);

// A byte of a slice, counted from its start.
#[derive(Clone, Copy, Debug, PartialEq, Eq)]
pub struct Offset(pub usize);
