ghost use Rattle.std.specs.Prelude.{◌≡◌, [], ◌*◌, ◌<◌, length, get_or, IfOk};
ghost use Rattle.model.specs.Sizes.{chain_length};
ghost use Rattle.model.specs.Layouts.{of_over};
ghost use Rattle.checking.specs.Walk.{meet, link_walk, chain_walk, free_walk};
ghost use Rattle.tree.specs.Book.{pages_of};
ghost use Rattle.tree.specs.Work.{number_of, said};

use super::meeting::{Damaged, Role};
use octets::places::PageNo;

// A walk over an image's pages, which marks the role of each page that it meets.
#[derive(Drop)]
pub struct Walk<'a> {
    pages: &'a [[u8; 512]],
    roles: &'a mut [u16],
    ghost each: { length roles.now ≡ length pages.now },
}

impl<'a> Walk<'a> {
    ghost use Rattle.tree.specs.Going.{GoesOn};

    // A walk over an image of as many pages as there are roles.
    pub fn new(image: &'a [u8], roles: &'a mut [u16]) -> Walk<'a>
        requires { length image.now ≡ length roles.old * 512 }
        ensures pages { result.pages.now ≡ pages_of image.now (length roles.old) }
        ensures roles { result.roles.now ≡ roles.old }
        ensures lent { result.roles.ghost_name ≡ roles.entry.ghost_name }
    {
        let (pages, _) = image.as_chunks::<512>();
        Walk { pages, roles }
    }

    // Marks a page that has no role yet, and gives it. (`GoesOn` stands at each method: that a walk has the same pages and marks in the
    // same work area as before is a fact of two values, which no invariant of one can say.)
    fn meet(&mut self, p: PageNo, role: Role) -> Result<&'a [u8; 512], Damaged>
        ensures on { GoesOn self.old self.new }
        ensures met { said result self.new.roles.now ≡ meet (length self.old.pages.now) (number_of role) p.0 self.old.roles.now }
        ensures page { IfOk result (λ page. page.now ≡ get_or self.old.pages.now p.0 []) }
    {
        super::meeting::meet(self.roles, p, role as u16)?;
        Ok(&self.pages[usize::from(p.0)])
    }

    // Meets a page of a chain, which has to hold so many bytes: the page that it names as next.
    fn link(&mut self, p: PageNo, held: usize) -> Result<PageNo, Damaged>
        ensures on { GoesOn self.old self.new }
        ensures walked { said result self.new.roles.now ≡ link_walk 512 (length self.old.pages.now) self.old.pages.now held p.0 self.old.roles.now }
        ensures next { IfOk result (λ next. next.0 ≡ (of_over (get_or self.old.pages.now p.0 [])).next) }
    {
        let page = self.meet(p, Role::Overflow)?;
        if !page::overflow::is_overflow(page) || page::overflow::count(page) != held {
            return Err(Damaged);
        }
        Ok(page::overflow::next(page))
    }

    // Meets the pages of a chain that holds v bytes, more than a cell holds: as many pages as they need, and the last names no next.
    pub fn chain(&mut self, first: PageNo, v: usize) -> Result<(), Damaged>
        requires { 64 < v }
        ensures on { GoesOn self.old self.new }
        ensures walked { said result self.new.roles.now ≡ chain_walk 512 (length self.old.pages.now) self.old.pages.now (chain_length 512 v) v first.0 self.old.roles.now }
    {
        let mut p = first;
        // No index: the bytes that are left say whether a page has to be full. A `for` would need the count of full pages beside them.
        let mut left = v;
        while 504 < left {
            p = self.link(p, 504)?;
            left -= 504;
        }
        if self.link(p, left)?.0 != 0 {
            return Err(Damaged);
        }
        Ok(())
    }

    // Meets the pages of the free list, the first one given.
    pub fn free_list(&mut self, first: PageNo) -> Result<(), Damaged>
        ensures on { GoesOn self.old self.new }
        ensures walked { said result self.new.roles.now ≡ free_walk 512 (length self.old.pages.now) self.old.pages.now (length self.old.pages.now) first.0 self.old.roles.now }
    {
        let mut p = first;
        for _ in 0..self.pages.len() {
            if p.0 == 0 {
                return Ok(());
            }
            let page = self.meet(p, Role::Free)?;
            if !page::free::is_free(page) {
                return Err(Damaged);
            }
            p = page::free::next(page);
        }
        if p.0 != 0 {
            return Err(Damaged);
        }
        Ok(())
    }
}
