ghost use Rattle.std.specs.Prelude.{◌≡◌, List, ℕ, ◌+◌, ◌≤◌, length};
ghost use Rattle.octets.specs.Numbers.{word16, word32, bytes16, bytes32};
ghost use Rattle.octets.specs.Laws.{NumberLaws, laws16, laws32, laws_page};
ghost use Rattle.octets.specs.Runs.{over};

use super::places::{Offset, PageNo};

// A number of a layout: little-endian, in as many bytes as its type has. (That they lie inside the slice is a fact of one call's
// arguments, which no value keeps for the next.)
pub trait Number {
    ghost width: { ℕ };

    // The number that stands in bytes from an index on.
    ghost word: { List ℕ → ℕ → Self };

    ghost bytes: { Self → List ℕ };

    ghost laws: { NumberLaws width word bytes };

    // The number in the bytes at an offset.
    fn get(b: &[u8], at: Offset) -> Self
        requires { at.0 + width ≤ length b.now }
        ensures { result ≡ word b.now at.0 };

    // Writes a number into the bytes at an offset.
    fn put(self, b: &mut [u8], at: Offset)
        requires { at.0 + width ≤ length b.old }
        ensures { b.new ≡ over b.old at.0 (bytes self) };
}

impl Number for u16 {
    ghost width = { 2 };

    ghost word = { word16 };

    ghost bytes = { bytes16 };

    ghost laws = { laws16 };

    fn get(b: &[u8], at: Offset) -> u16 {
        let i = at.0;
        u16::from_le_bytes([b[i], b[i + 1]])
    }

    fn put(self, b: &mut [u8], at: Offset) {
        let i = at.0;
        b[i..i + 2].copy_from_slice(&self.to_le_bytes());
    }
}

impl Number for u32 {
    ghost width = { 4 };

    ghost word = { word32 };

    ghost bytes = { bytes32 };

    ghost laws = { laws32 };

    fn get(b: &[u8], at: Offset) -> u32 {
        let i = at.0;
        u32::from_le_bytes([b[i], b[i + 1], b[i + 2], b[i + 3]])
    }

    fn put(self, b: &mut [u8], at: Offset) {
        let i = at.0;
        b[i..i + 4].copy_from_slice(&self.to_le_bytes());
    }
}

// A page's number has two bytes.
impl Number for PageNo {
    ghost width = { 2 };

    ghost word = { λ l i. record { 0 = word16 l i } };

    ghost bytes = { λ p. bytes16 p.0 };

    ghost laws = { laws_page };

    fn get(b: &[u8], at: Offset) -> PageNo {
        PageNo(u16::get(b, at))
    }

    fn put(self, b: &mut [u8], at: Offset) {
        self.0.put(b, at);
    }
}
