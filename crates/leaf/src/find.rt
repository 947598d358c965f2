ghost use Rattle.leaf.specs.Finding.{Ordered, IsFound};

use super::cell::Cell;
use octets::places::Slot;
use std::cmp::Ordering;

// Where a key is: its slot, or else the slot that it would have. (The library's search by halves asks for a test of any two bytes, where
// this one is safe at a slot of the page alone.)
pub fn find(page: &[u8], key: &[u8]) -> Result<Slot, Slot>
    requires { Ordered page.now }
    ensures { IsFound page.now key.now result }
{
    let mut low = 0;
    let mut high = super::front::count(page);
    while low < high {
        let middle = low + (high - low) / 2;
        match octets::keys::compare(Cell::of(page, Slot(middle)).key(), key) {
            Ordering::Less => low = middle + 1,
            Ordering::Equal => return Ok(Slot(middle)),
            Ordering::Greater => high = middle,
        }
    }
    Err(Slot(low))
}
