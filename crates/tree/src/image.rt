ghost use Rattle.std.specs.Prelude.{◌≡◌, ◌+◌, ◌*◌, ◌≤◌, length};
ghost use Rattle.tree.specs.Book.{page_at};

use octets::places::PageNo;

// Page p of an image: a part of it. (Kept with its clause: what changes an image has it as bytes, since
// `as_chunks_mut` says nothing of what they are afterwards. `Walk` reads by `as_chunks`.)
pub fn page_of(image: &[u8], p: PageNo) -> &[u8]
    requires { p.0 * 512 + 512 ≤ length image.now }
    ensures { result.now ≡ page_at image.now p.0 }
{
    let a = usize::from(p.0) * 512;
    let e = a + 512;
    &image[a..e]
}
