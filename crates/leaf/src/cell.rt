ghost use Rattle.std.specs.Prelude.{◌≡◌, ◌+◌, ◌≤◌, length, get_or};
ghost use Rattle.octets.specs.Runs.{part};
ghost use Rattle.octets.specs.Numbers.{word16};
ghost use Rattle.model.specs.Layouts.{cell_size, slot_of};
ghost use Rattle.checking.specs.Alone.{key_of};
ghost use Rattle.leaf.specs.Cells.{CellIn, IsCell};

use octets::numbers::Number;
use octets::places::{Offset, PageNo, Slot};

// How a value stands in its cell.
#[derive(Clone, Copy, Drop)]
pub enum Value<'a> {
    // It is these bytes.
    Inline(&'a [u8]),
    // It has that many bytes, in a chain from that page on.
    Chained(usize, PageNo),
}

// A cell: a part of its page, with as many bytes as it says.
#[derive(Clone, Copy)]
pub struct Cell<'a> {
    pub bytes: &'a [u8],
    pub ghost whole: { IsCell bytes.now },
}

// How many bytes the cell has that stands in front.
#[tactic(auto, unfolding(model::specs::Layouts::cell_size, model::specs::Sizes::inline_most, octets::specs::Choice::choose))]
fn size(b: &[u8]) -> usize
    requires { 3 ≤ length b.now }
    ensures { result ≡ cell_size b.now }
{
    let v = usize::from(u16::get(b, Offset(1)));
    3 + usize::from(b[0]) + if v <= 64 { v } else { 2 }
}

impl<'a> Cell<'a> {
    ghost use Rattle.leaf.specs.Values.{Holds};

    // The cell of a slot.
    pub fn of(page: &'a [u8], slot: Slot) -> Cell<'a>
        requires { CellIn page.now slot.0 }
        ensures { result.bytes.now ≡ (slot_of page.now slot.0).bytes }
    {
        let at = usize::from(u16::get(page, Offset(12 + 2 * slot.0)));
        let n = size(&page[at..]);
        let bytes = &page[at..at + n];
        Cell { bytes }
    }

    // Its key: a part of the page.
    pub fn key(&self) -> &'a [u8]
        ensures { result.now ≡ key_of self.now.bytes.now }
    {
        let k = usize::from(self.bytes[0]);
        &self.bytes[3..3 + k]
    }

    // Its value: a part of the page, or where the chain starts that holds it.
    pub fn value(&self) -> Value<'a>
        ensures { Holds self.now.bytes.now result }
    {
        let b = self.bytes;
        let e = 3 + usize::from(b[0]);
        let v = usize::from(u16::get(b, Offset(1)));
        if v <= 64 {
            Value::Inline(&b[e..e + v])
        } else {
            Value::Chained(v, PageNo::get(b, Offset(e)))
        }
    }
}
