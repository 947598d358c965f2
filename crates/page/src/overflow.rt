ghost use Rattle.std.specs.Prelude.{◌≡◌, ◌+◌, ◌≤◌, ◌<◌, length};
ghost use Rattle.octets.specs.Says.{Says};
ghost use Rattle.octets.specs.Numbers.{word16};
ghost use Rattle.model.specs.Layouts.{to_over, of_over};
ghost use Rattle.page.specs.Overflow.{over_front, over_page, OverBytes};

use super::kind::Kind;
use octets::numbers::Number;
use octets::places::{Offset, PageNo};

// The next page of the chain. (`free::next` reads the same two bytes: one function for both would take the least length and the
// definition that it is promised by as parameters, and say no more.)
#[tactic(auto, unfolding(model::specs::Layouts::of_over))]
pub fn next(page: &[u8]) -> PageNo
    requires { 8 ≤ length page.now }
    ensures { result.0 ≡ (of_over page.now).next }
{
    PageNo::get(page, Offset(2))
}

// How many bytes of the value the page says that it holds. (Beside the count of an inner page: see there.)
pub fn count(page: &[u8]) -> usize
    requires { 8 ≤ length page.now }
    ensures said { result ≡ word16 page.now 4 }
    ensures small { result < 65536 }
{
    usize::from(u16::get(page, Offset(4)))
}

// The bytes of the value that the page holds: a part of it.
pub fn held(page: &[u8]) -> &[u8]
    requires { 8 + word16 page.now 4 ≤ length page.now }
    ensures { result.now ≡ (of_over page.now).held }
{
    let e = 8 + count(page);
    &page[8..e]
}

// The bytes before the payload.
fn front(next: PageNo, held: u16) -> [u8; 8]
    ensures { result ≡ over_front next.0 held }
{
    let mut bytes = [0; 8];
    bytes[0] = Kind::Overflow as u8;
    next.put(&mut bytes, Offset(2));
    held.put(&mut bytes, Offset(4));
    bytes
}

// Makes an overflow page of any page.
pub fn write(page: &mut [u8], next: PageNo, held: &[u8])
    requires room { 8 + length held.now ≤ length page.old }
    requires small { length held.now < 65536 }
    ensures { page.new ≡ to_over (length page.old) (over_page next.0 held.now) }
{
    // Only what is behind the held bytes is zeroed: a full page would be written twice.
    let e = 8 + held.len();
    let behind = page.len() - e;
    octets::runs::zero(page, Offset(e), behind);
    // Below 65,536 by the clause `small`: `try_from` would bring an `Err` that can't come.
    let bytes = front(next, held.len() as u16);
    octets::runs::copy_in(page, Offset(0), &bytes);
    octets::runs::copy_in(page, Offset(8), held);
}

// Whether a page is an overflow page by its layout.
pub fn is_overflow(page: &[u8]) -> bool
    requires { 8 ≤ length page.now }
    ensures { Says result (OverBytes page.now) }
{
    let e = 8 + count(page);
    page[0] == Kind::Overflow as u8
        && page[1] == 0
        && page[6] == 0
        && page[7] == 0
        && e <= page.len()
        && octets::runs::blank(&page[e..])
}
