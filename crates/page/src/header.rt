ghost use Rattle.std.specs.Prelude.{◌≡◌, ◌≤◌, length};
ghost use Rattle.octets.specs.Says.{Says};
ghost use Rattle.model.specs.Layouts.{to_head, of_head};
ghost use Rattle.page.specs.Header.{head_of, front_of, HeadBytes};

use octets::numbers::Number;
use octets::places::{Offset, PageNo};

// What page 0 says of the store.
#[derive(Clone, Copy, Debug, PartialEq, Eq)]
pub struct Header {
    pub n: u16,
    pub root: PageNo,
    pub height: u16,
    pub free: PageNo,
    pub count: u32,
    pub edition: u16,
}

// What a header says.
#[tactic(auto, unfolding(crate::specs::Header::head_of, model::specs::Layouts::of_head))]
pub fn read(page: &[u8]) -> Header
    requires { 14 ≤ length page.now }
    ensures { head_of result ≡ of_head page.now }
{
    Header {
        n: u16::get(page, Offset(0)),
        root: PageNo::get(page, Offset(2)),
        height: u16::get(page, Offset(4)),
        free: PageNo::get(page, Offset(6)),
        count: u32::get(page, Offset(8)),
        edition: u16::get(page, Offset(12)),
    }
}

// The bytes of a header that are not zero for good.
fn front(h: Header) -> [u8; 14]
    ensures { result ≡ front_of h }
{
    let mut bytes = [0; 14];
    h.n.put(&mut bytes, Offset(0));
    h.root.put(&mut bytes, Offset(2));
    h.height.put(&mut bytes, Offset(4));
    h.free.put(&mut bytes, Offset(6));
    h.count.put(&mut bytes, Offset(8));
    h.edition.put(&mut bytes, Offset(12));
    bytes
}

// Writes a header over one, or over a page of zeros.
pub fn write(page: &mut [u8], h: Header)
    requires { HeadBytes page.old }
    ensures { page.new ≡ to_head (length page.old) (head_of h) }
{
    let bytes = front(h);
    octets::runs::copy_in(page, Offset(0), &bytes);
}

// Whether a page is a header by its layout.
pub fn is_header(page: &[u8]) -> bool
    requires { 14 ≤ length page.now }
    ensures { Says result (HeadBytes page.now) }
{
    octets::runs::blank(&page[14..])
}
