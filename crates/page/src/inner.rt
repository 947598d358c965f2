ghost use Rattle.std.specs.Prelude.{◌≡◌, ◌+◌, ◌*◌, ◌≤◌, ◌<◌, length};
ghost use Rattle.octets.specs.Says.{Says};
ghost use Rattle.octets.specs.Runs.{over};
ghost use Rattle.octets.specs.Numbers.{word16, bytes16};
ghost use Rattle.model.specs.Layouts.{record_of, of_inner};
ghost use Rattle.page.specs.Inner.{child_of, KeyIn, key_of, record_is, place_in, Keyed, front_is, Fits, Joins, Inserts, Removes, Replaces, SetsFirst, Fills, Appends, FrontBytes, OneRecord, AllRanked, InnerBytes};

use super::kind::Kind;
use octets::numbers::Number;
use octets::places::{Offset, PageNo};

// A key by value: its length beside its bytes, as a record has them. (No Vec, since there is no heap; no slice, since the page that it
// is read from may change, and since `key_of` promises what stands behind the key too.)
#[derive(Clone, Copy, Debug, PartialEq, Eq)]
pub struct Key {
    pub len: u8,
    pub bytes: [u8; 32],
}

// How many records a page says that it has. (What this and the count of an overflow page share is `u16::get`: one function for both
// would take offset and least length as parameters, and say no more.)
pub fn count(page: &[u8]) -> usize
    requires { 12 ≤ length page.now }
    ensures said { result ≡ word16 page.now 2 }
    ensures small { result < 65536 }
{
    usize::from(u16::get(page, Offset(2)))
}

// The child at a place: the first child at 0, that of record i at i + 1.
pub fn child(page: &[u8], place: usize) -> PageNo
    requires { 12 + 35 * place ≤ length page.now }
    ensures { result.0 ≡ child_of page.now place }
{
    if place == 0 {
        return PageNo::get(page, Offset(8));
    }
    PageNo::get(page, Offset(12 + 35 * (place - 1) + 1))
}

// The key of record i: a part of the page.
pub fn separator(page: &[u8], i: usize) -> &[u8]
    requires { KeyIn page.now i }
    ensures { result.now ≡ (record_of page.now i).key }
{
    let at = 12 + 35 * i;
    let n = usize::from(page[at]);
    &page[at + 3..at + 3 + n]
}

// The key of record i, by value.
pub fn separator_key(page: &[u8], i: usize) -> Key
    requires { 12 + 35 * (i + 1) ≤ length page.now }
    ensures { key_of page.now i result.bytes result.len }
{
    let at = 12 + 35 * i;
    let mut bytes = [0; 32];
    bytes.copy_from_slice(&page[at + 3..at + 35]);
    Key {
        len: page[at],
        bytes,
    }
}

// The bytes of a record.
pub fn record(key: Key, child: PageNo) -> [u8; 35]
    ensures { result ≡ record_is key.len child.0 key.bytes }
{
    let mut r = [0; 35];
    r[0] = key.len;
    child.put(&mut r, Offset(1));
    octets::runs::copy_in(&mut r, Offset(3), &key.bytes);
    r
}

// Where a key goes: the place of the first child whose separator is above the key; an equal one is not. (One separator after another,
// at most 14: the answer is promised for separators in any order, where halving would give another.)
pub fn place_of(page: &[u8], key: &[u8]) -> usize
    requires { Keyed page.now }
    ensures { result ≡ place_in key.now (of_inner page.now).rest }
{
    let c = count(page);
    for i in 0..c {
        if octets::keys::before(key, separator(page, i)) {
            return i;
        }
    }
    c
}

// Writes the count. (It is at most 28, so the cast loses nothing: `try_from` would bring an `Err` that can't come.)
fn set_count(page: &mut [u8], c: usize)
    requires long { 12 ≤ length page.old }
    requires few { c ≤ 28 }
    ensures { page.new ≡ over page.old 2 (bytes16 c) }
{
    (c as u16).put(page, Offset(2));
}

// Puts a record in as record i, those from i on moved up. (A page of 15 records is one of 547 bytes: the whole before it is parted.)
pub fn insert(page: &mut [u8], i: usize, r: &[u8; 35])
    requires { Fits page.old (word16 page.old 2) i }
    ensures { Inserts page.old i r.now page.new }
{
    let c = count(page);
    let at = 12 + 35 * i;
    octets::runs::move_within(page, Offset(at + 35), Offset(at), 35 * (c - i));
    octets::runs::copy_in(page, Offset(at), r);
    set_count(page, c + 1);
}

// Takes record i out, those behind it moved down.
pub fn remove(page: &mut [u8], i: usize)
    requires place { i < word16 page.old 2 }
    requires few { word16 page.old 2 ≤ 14 }
    requires room { 12 + 35 * word16 page.old 2 ≤ length page.old }
    ensures { Removes page.old i page.new }
{
    let c = count(page);
    let at = 12 + 35 * i;
    octets::runs::move_within(page, Offset(at), Offset(at + 35), 35 * (c - i - 1));
    octets::runs::zero(page, Offset(12 + 35 * (c - 1)), 35);
    set_count(page, c - 1);
}

// Writes another record over record i.
pub fn replace(page: &mut [u8], i: usize, r: &[u8; 35])
    requires { 12 + 35 * (i + 1) ≤ length page.old }
    ensures { Replaces page.old i r.now page.new }
{
    octets::runs::copy_in(page, Offset(12 + 35 * i), r);
}

// Makes another page the first child.
pub fn set_first(page: &mut [u8], child: PageNo)
    requires { 12 ≤ length page.old }
    ensures { SetsFirst page.old child.0 page.new }
{
    child.put(page, Offset(8));
}

// The bytes before the records.
fn front(c: u16, first: PageNo) -> [u8; 12]
    ensures { result ≡ front_is c first.0 }
{
    let mut bytes = [0; 12];
    bytes[0] = Kind::Inner as u8;
    c.put(&mut bytes, Offset(2));
    first.put(&mut bytes, Offset(8));
    bytes
}

// Makes an inner page of a first child and n records of another page, from record a on. (A first record and a count, and no slice of the
// records: `Fills` speaks of these.)
pub fn fill(page: &mut [u8], first: PageNo, from: &[u8], a: usize, n: usize)
    requires first { a ≤ 15 }
    requires few { n ≤ 15 }
    requires inside { 12 + 35 * (a + n) ≤ length from.now }
    requires room { 12 + 35 * n ≤ length page.old }
    ensures { Fills from.now first.0 a n page.new }
{
    // Only what is behind the records is zeroed: they would be written twice.
    let behind = page.len() - (12 + 35 * n);
    octets::runs::zero(page, Offset(12 + 35 * n), behind);
    // At most 15: `try_from` would bring an `Err` that can't come.
    let bytes = front(n as u16, first);
    octets::runs::copy_in(page, Offset(0), &bytes);
    let s = 12 + 35 * a;
    let e = s + 35 * n;
    octets::runs::copy_in(page, Offset(12), &from[s..e]);
}

// Adds all records of another page behind those of a page.
pub fn append(page: &mut [u8], from: &[u8])
    requires { Joins page.old from.now }
    ensures { Appends page.old from.now page.new }
{
    let c = count(page);
    let m = count(from);
    octets::runs::copy_in(page, Offset(12 + 35 * c), &from[12..12 + 35 * m]);
    set_count(page, c + m);
}

// Whether the bytes before the records are those of an inner page. (Those that are zero for good are joined, so that they are one test.)
fn is_front(page: &[u8]) -> bool
    requires { 12 ≤ length page.now }
    ensures { Says result (FrontBytes page.now) }
{
    let seen = page[1] | page[4] | page[5] | page[6] | page[7] | page[10] | page[11];
    page[0] == Kind::Inner as u8 && seen == 0
}

// Whether record i has a key of at most 32 bytes with zeros behind it.
fn is_record(page: &[u8], i: usize) -> bool
    requires { 12 + 35 * (i + 1) ≤ length page.now }
    ensures { Says result (OneRecord page.now i) }
{
    let at = 12 + 35 * i;
    let n = usize::from(page[at]);
    n <= 32 && octets::runs::blank(&page[at + 3 + n..at + 35])
}

// Whether each record is one, its key above that of the one before. (Before the first stands the empty key: what is above it is not empty.)
fn are_records(page: &[u8]) -> bool
    requires few { word16 page.now 2 ≤ 14 }
    requires long { 12 + 35 * 14 ≤ length page.now }
    ensures { Says result (AllRanked page.now (word16 page.now 2)) }
{
    let c = count(page);
    let mut last = &page[0..0];
    for i in 0..c {
        if !is_record(page, i) {
            return false;
        }
        let key = separator(page, i);
        if !octets::keys::before(last, key) {
            return false;
        }
        last = key;
    }
    true
}

// Whether a page is an inner page by its layout, with keys of 1 to 32 bytes that rise.
pub fn is_inner(page: &[u8]) -> bool
    requires { 12 + 35 * 14 ≤ length page.now }
    ensures { Says result (InnerBytes page.now) }
{
    let c = count(page);
    is_front(page) && c <= 14 && are_records(page) && octets::runs::blank(&page[12 + 35 * c..])
}
