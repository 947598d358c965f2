ghost use Rattle.std.specs.Prelude.{◌≡◌, ◌+◌, ◌≤◌, length};
ghost use Rattle.octets.specs.Runs.{over, part, zeros};
ghost use Rattle.octets.specs.Says.{Says};

use super::places::Offset;

// That a run lies inside its slice stands in each contract: it is a fact of one call's arguments, which no value keeps for the next.

// Zeroes n bytes from an offset on. (Not by `fill`, which writes the last byte by itself: 35 bytes took about a third longer.)
pub fn zero(b: &mut [u8], at: Offset, n: usize)
    requires { at.0 + n ≤ length b.old }
    ensures { b.new ≡ over b.old at.0 (zeros n) }
{
    let run = &mut b[at.0..at.0 + n];
    for x in run.iter_mut() {
        *x = 0;
    }
}

// Copies the bytes of src to dst from an offset on.
pub fn copy_in(dst: &mut [u8], at: Offset, src: &[u8])
    requires { at.0 + length src.now ≤ length dst.old }
    ensures { dst.new ≡ over dst.old at.0 src.now }
{
    let i = at.0;
    dst[i..i + src.len()].copy_from_slice(src);
}

// Moves n bytes to another offset; the two places may overlap.
pub fn move_within(b: &mut [u8], to: Offset, from: Offset, n: usize)
    requires source { from.0 + n ≤ length b.old }
    requires target { to.0 + n ≤ length b.old }
    ensures { b.new ≡ over b.old to.0 (part b.old from.0 n) }
{
    let i = from.0;
    b.copy_within(i..i + n, to.0);
}

// Whether all bytes are zero. (Every byte is looked at: a test at each would keep the machine from taking many at once.)
pub fn blank(b: &[u8]) -> bool
    ensures { Says result (b.now ≡ zeros (length b.now)) }
{
    b.iter().fold(0, |seen, x| seen | x) == 0
}
