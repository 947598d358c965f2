ghost use Rattle.std.specs.Prelude.{◌≡◌, ◌≤◌, ◌<◌, length};
ghost use Rattle.octets.specs.Numbers.{word16};
ghost use Rattle.model.specs.Layouts.{to_leaf, of_leaf, leaf_top};
ghost use Rattle.leaf.specs.Empty.{empty};

use octets::numbers::Number;
use octets::places::{Offset, PageNo};
use page::kind::Kind;

// How many slots a page says that it has: the count stands where an inner page has its own.
pub use page::inner::count;

// Where the cells start.
#[tactic(auto, unfolding(model::specs::Layouts::of_leaf))]
pub fn start(page: &[u8]) -> Offset
    requires { 12 ≤ length page.now }
    ensures said { result.0 ≡ (of_leaf (length page.now) page.now).start }
    ensures small { result.0 < 65536 }
{
    Offset(usize::from(u16::get(page, Offset(4))))
}

// How many bytes the holes among the cells have, as the page says.
pub fn holes(page: &[u8]) -> usize
    requires { 12 ≤ length page.now }
    ensures said { result ≡ word16 page.now 6 }
    ensures small { result < 65536 }
{
    usize::from(u16::get(page, Offset(6)))
}

// The next leaf.
#[tactic(auto, unfolding(model::specs::Layouts::of_leaf))]
pub fn next(page: &[u8]) -> PageNo
    requires { 12 ≤ length page.now }
    ensures { result.0 ≡ (of_leaf (length page.now) page.now).next }
{
    PageNo::get(page, Offset(8))
}

// The bytes of an empty leaf's front, in a page of that length.
fn front(length: usize, next: PageNo) -> [u8; 12]
    requires { length < 65536 }
    ensures { result ≡ leaf_top length (empty length next.0) }
{
    let mut bytes = [0; 12];
    bytes[0] = Kind::Leaf as u8;
    // Below 65,536 by the clause: `try_from` would bring an `Err` that can't come.
    (length as u16).put(&mut bytes, Offset(4));
    next.put(&mut bytes, Offset(8));
    bytes
}

// Makes an empty leaf of any page.
pub fn clear(page: &mut [u8], next: PageNo)
    requires long { 12 ≤ length page.old }
    requires few { length page.old < 65536 }
    ensures { page.new ≡ to_leaf (length page.old) (empty (length page.old) next.0) }
{
    page.fill(0);
    let bytes = front(page.len(), next);
    octets::runs::copy_in(page, Offset(0), &bytes);
}
