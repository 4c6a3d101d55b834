// A file's table of contents: read by a cursor over the file, tried, and written.
#![tactic(auto)]

ghost use Rattle.std.specs.Prelude.{◌≡◌, ◌++◌, eqb, ◌+◌, ◌*◌, ◌≤◌, ◌<◌, ◌^◌, length};
ghost use Rattle.mathematics.specs.Below.{all_below, join_below};
ghost use Rattle.numbers.specs.Number.{store, digits};
ghost use Rattle.contents.specs.Contents.{entry_at, entry, cell, numbers_right, headed, placed, sized, Inside};
ghost use Rattle.contents.specs.File.{start, entry_bytes, contents_bytes, Listable};

mod body_lengths;

pub use body_lengths::BodyLengths;
use numbers::{read, write};

// A contents entry: a section's number, and where its body starts and how long it is.
#[derive(Clone, Copy, Debug, PartialEq, Eq)]
pub struct Entry {
    pub number: u64,
    pub offset: usize,
    pub length: usize,
}

// A place in the contents of a file: a slice and a position, as paper 01 names the form.
#[derive(Clone, Copy)]
pub struct Cursor<'a> {
    pub src: &'a [u8],
    pub at: usize,
}

// The entry that stands at a position of the file.
#[tactic(auto, unfolding(crate::specs::Contents::entry_at))]
fn entry_at(s: &[u8], at: usize) -> Entry
    requires { at + 9 ≤ length s.now }
    ensures { (result ≡ entry_at s.now at) × (result.number < 256) × (result.offset < 2 ^ 32) × (result.length < 2 ^ 32) }
{
    let number = u64::from(s[at]);
    let offset = read(s, at + 1, 4) as usize;
    let length = read(s, at + 5, 4) as usize;
    Entry {
        number,
        offset,
        length,
    }
}

impl<'a> Cursor<'a> {
    // A cursor at the first entry.
    fn begin(src: &'a [u8]) -> Cursor<'a>
        ensures { (result.src ≡ src.entry) × (result.at ≡ 2) }
    {
        Cursor { src, at: 2 }
    }

    // The cursor past `count` entries.
    fn skip(self, count: usize) -> Cursor<'a>
        requires { self.at + 9 * count < 2 ^ 64 }
        ensures { (result.src ≡ self.entry.src) × (result.at ≡ self.entry.at + 9 * count) }
    {
        Cursor {
            src: self.src,
            at: self.at + 9 * count,
        }
    }

    // The entry at the cursor.
    fn next_entry(self) -> Entry
        requires { self.at + 9 ≤ length self.src.now }
        ensures { (result ≡ entry_at self.entry.src.now self.entry.at) × (result.number < 256) × (result.offset < 2 ^ 32)
            × (result.length < 2 ^ 32) }
    {
        entry_at(self.src, self.at)
    }
}

// The entry in place i of the contents: what every reader of contents calls.
#[tactic(auto, unfolding(crate::specs::Contents::entry))]
pub fn entry_in(s: &[u8], i: usize) -> Entry
    requires { (i < 256) × (11 + 9 * i ≤ length s.now) }
    ensures { (result ≡ entry s.now i) × (result.number < 256) × (result.offset < 2 ^ 32) × (result.length < 2 ^ 32) }
{
    Cursor::begin(s).skip(i).next_entry()
}

// Whether the sections are numbered from `first` on.
fn numbered(s: &[u8], first: u64, count: usize) -> bool
    requires { (2 + 9 * count ≤ length s.now) × (count < 256) × (first < 256) }
    ensures { result ≡ all_below count (λ i. eqb (entry s.now i).number (first + i)) }
{
    (0..count).all(|i| entry_in(s, i).number == first + i as u64)
}

// Kind, count of sections and their numbers, of a file that is long enough for its contents.
fn has_numbers(s: &[u8], kind: u64, first: u64, count: usize) -> bool
    requires { (2 + 9 * count ≤ length s.now) × (count < 256) × (first < 256) }
    ensures { result ≡ numbers_right s.now kind first count }
{
    u64::from(s[0]) == kind && usize::from(s[1]) == count && numbered(s, first, count)
}

// Rows 1, 11 and 21. The kind is the number that stands in the file. It, the first section and the count are parameters: a plant's or a slot
// file's lengths, with which `BodyLengths` has them, are not known yet.
#[tactic(auto, unfolding(crate::specs::Contents::headed))]
pub fn is_headed(s: &[u8], kind: u64, first: u64, count: usize) -> bool
    requires { (count < 256) × (first < 256) }
    ensures { result ≡ headed s.now kind first count }
{
    2 + 9 * count <= s.len() && has_numbers(s, kind, first, count)
}

// Rows 2, 12 and 22, likewise before the lengths are known.
pub fn is_placed(s: &[u8], count: usize) -> bool
    requires { (2 + 9 * count ≤ length s.now) × (count < 256) }
    ensures { result ≡ placed s.now count }
{
    let mut end = 2 + 9 * count;
    for i in 0..count {
        let e = entry_in(s, i);
        if e.offset != end {
            return false;
        }
        end += e.length;
    }
    end == s.len()
}

// Rows 4, 13 and 23.
pub fn is_sized(s: &[u8], lengths: &[usize]) -> bool
    requires { (2 + 9 * length lengths.now ≤ length s.now) × (length lengths.now < 256) }
    ensures { result ≡ sized s.now lengths.now }
{
    (0..lengths.len()).all(|i| entry_in(s, i).length == lengths[i])
}

// Number j of those of k bytes that section i holds. Bytes, section and width are parameters, since each accessor has its own.
#[tactic(auto, unfolding(crate::specs::Contents::cell))]
pub fn cell_in(s: &[u8], i: usize, k: usize, j: usize) -> u64
    requires { Inside s.now i k j }
    ensures { result ≡ cell k s.now i j }
{
    let e = entry_in(s, i);
    read(s, e.offset + k * j, k)
}

// Where the body in a place begins, of bodies with these lengths; after the last place, where the file ends.
pub fn section_start(lengths: &[usize], place: usize) -> usize
    requires { (place ≤ length lengths.now) × (start lengths.now (length lengths.now) < 2 ^ 32) }
    ensures { (result ≡ start lengths.now place) × (result < 2 ^ 32) }
{
    let mut at = 2 + 9 * lengths.len();
    for i in 0..place {
        at += lengths[i];
    }
    at
}

// Stores an entry at the start of what is lent.
fn write_entry(out: &mut [u8], number: u64, offset: u64, extent: u64)
    requires { 9 ≤ length out.old }
    ensures { out.new ≡ store out.old 0 (digits 1 number ++ (digits 4 offset ++ digits 4 extent)) }
{
    write(out, 0, 1, number);
    write(out, 1, 4, offset);
    write(out, 5, 4, extent);
}

// Stores the entries of sections with these lengths at the start of what is lent.
fn write_entries(out: &mut [u8], first: u64, lengths: &[usize])
    requires { Listable first lengths.now × (9 * length lengths.now ≤ length out.old) }
    ensures { out.new ≡ store out.old 0 (join_below (length lengths.now) (entry_bytes first lengths.now)) }
{
    let mut number = first;
    let mut offset = 2 + 9 * lengths.len();
    let mut place = 0;
    for &extent in lengths {
        write_entry(&mut out[place..], number, offset as u64, extent as u64);
        number += 1;
        offset += extent;
        place += 9;
    }
}

// Stores the contents of a file of this kind, its sections numbered from `first` and their bodies of these lengths.
pub fn write_contents(out: &mut [u8], kind: u64, first: u64, lengths: &[usize])
    requires { Listable first lengths.now × (2 + 9 * length lengths.now ≤ length out.old) }
    ensures { out.new ≡ store out.old 0 (contents_bytes kind first lengths.now) }
{
    write(out, 0, 1, kind);
    write(out, 1, 1, lengths.len() as u64);
    write_entries(&mut out[2..], first, lengths);
}
