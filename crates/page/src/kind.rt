// What a page is, by its first byte, which is `kind as u8`: a `From` would only hold that cast. (Page 0 has none: it is the header.)
#[derive(Clone, Copy, Debug, PartialEq, Eq)]
pub enum Kind {
    Free = 0,
    Leaf = 1,
    Inner = 2,
    Overflow = 3,
}
