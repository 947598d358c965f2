ghost use Rattle.std.specs.Prelude.{◌≡◌};
ghost use Rattle.octets.specs.Keys.{compare_keys, before};

use std::cmp::Ordering;

// How two keys compare: by unsigned bytes, and a key before those that it begins. (A call of its own, so that `before` stays short where
// it is used.)
#[inline(never)]
pub fn compare(a: &[u8], b: &[u8]) -> Ordering
    ensures { result ≡ compare_keys a.now b.now }
{
    a.cmp(b)
}

// Whether a key comes before another.
#[inline(always)]
pub fn before(a: &[u8], b: &[u8]) -> bool
    ensures { result ≡ before a.now b.now }
{
    // First bytes that differ decide. The library would first ask how many bytes it can take at once, which took twice as long.
    if !a.is_empty() && !b.is_empty() && a[0] != b[0] {
        return a[0] < b[0];
    }
    compare(a, b).is_lt()
}
