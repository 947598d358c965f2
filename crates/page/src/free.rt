ghost use Rattle.std.specs.Prelude.{◌≡◌, ◌≤◌, length};
ghost use Rattle.octets.specs.Says.{Says};
ghost use Rattle.model.specs.Layouts.{to_free, of_free};
ghost use Rattle.page.specs.Free.{FreeBytes};

use super::kind::Kind;
use octets::numbers::Number;
use octets::places::{Offset, PageNo};

// The next free page that a free page names. (See `overflow::next`.)
#[tactic(auto, unfolding(model::specs::Layouts::of_free))]
pub fn next(page: &[u8]) -> PageNo
    requires { 4 ≤ length page.now }
    ensures { result.0 ≡ of_free page.now }
{
    PageNo::get(page, Offset(2))
}

// Makes a free page of any page: the first byte, 0, is its kind.
pub fn write(page: &mut [u8], next: PageNo)
    requires { 4 ≤ length page.old }
    ensures { page.new ≡ to_free (length page.old) next.0 }
{
    page.fill(0);
    next.put(page, Offset(2));
}

// Whether a page is a free page by its layout.
pub fn is_free(page: &[u8]) -> bool
    requires { 4 ≤ length page.now }
    ensures { Says result (FreeBytes page.now) }
{
    page[0] == Kind::Free as u8 && page[1] == 0 && octets::runs::blank(&page[4..])
}
