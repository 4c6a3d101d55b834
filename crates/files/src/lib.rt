// Files as the programs read and write them, and numbers as their arguments name them.
#![tactic(auto)]

ghost use Rattle.std.specs.Prelude.{[], length, take, ◌≡◌, ◌≤◌};
ghost use Rattle.files.specs.Counts.{IsPrefixLen};
ghost use Rattle.files.specs.Within.{Within};
ghost use Rattle.files.specs.Numerals.{with_digit, numeral_of};

use sections::Refusal;
use std::env::FillError;
use std::io::{Read, Write};
use std::rt::{Env, Files};
use std::{fs, str};

// Bytes that were read: the first `count` of an array of N. A `Vec` would need a heap, which the programs do without.
#[derive(Drop)]
pub struct Bytes<const N: usize> {
    items: [u8; N],
    count: usize,
    ghost fits: { count ≤ N },
}

// An argument. 4,096 bytes hold any path.
pub type Argument = Bytes<4096>;

// A file, or its start: as much as the programs read.
pub type FileBytes = Bytes<65536>;

impl<const N: usize> Bytes<N> {
    // No bytes yet, with room for N. Made where it stands, since a copy of the room costs as much as reading a file does.
    #[inline(always)]
    pub fn empty() -> Bytes<N>
        ensures { take result.count result.items ≡ [] }
    {
        Bytes {
            items: [0; N],
            count: 0,
        }
    }

    // Takes argument i, in the place of what was read before.
    pub fn read_argument(&mut self, rt: &impl Env, i: usize) {
        self.count = argument(rt, i, &mut self.items);
    }

    // Takes the start of a file, in the place of what was read before.
    pub fn read_file(&mut self, rt: &impl Files, path: &[u8]) {
        self.count = read_file(rt, path, &mut self.items);
    }

    // The same of the file that argument i names.
    pub fn read_named(&mut self, rt: &(impl Env + Files), i: usize) {
        self.count = read_named(rt, i, &mut self.items);
    }

    // The bytes alone.
    pub fn as_slice(&self) -> &[u8]
        ensures { result.now ≡ take self.now.count self.now.items }
    {
        &self.items[..self.count]
    }
}

// 65,536 zeros: room for each file that the programs write.
pub fn large_buffer() -> [u8; 65536]
    ensures { 65536 ≡ length result }
{
    [0; 65536]
}

// How many arguments the program was started with, its own name among them.
pub fn argument_count(rt: &impl Env) -> usize {
    let mut byte = [0u8; 1];
    for i in 0..usize::MAX {
        if let Err(FillError::NotPresent) = rt.arg(i, &mut byte) {
            return i;
        }
    }
    usize::MAX
}

// Puts argument i at the start of buf, and answers how many bytes. One that is missing or longer than buf counts as empty.
pub fn argument(rt: &impl Env, i: usize, buf: &mut [u8]) -> usize
    ensures { IsPrefixLen result buf.new }
{
    rt.arg(i, buf).unwrap_or(0)
}

// Reads until buf is full, the input ends or a read fails, and answers how many bytes it put at the start of buf.
fn read_full(file: &mut impl Read, buf: &mut [u8]) -> usize
    ensures { IsPrefixLen result buf.new }
{
    let mut done = 0;
    // Each read but the last one gives a byte at least, so that as many as buf has bytes are enough.
    for _ in 0..buf.len() {
        let n = file.read(&mut buf[done..]).unwrap_or(0);
        done += n;
        if n == 0 || done == buf.len() {
            break;
        }
    }
    done
}

// Puts the start of a file at the start of buf, and answers how many bytes. One that cannot be read counts as empty.
pub fn read_file(rt: &impl Files, path: &[u8], buf: &mut [u8]) -> usize
    ensures { IsPrefixLen result buf.new }
{
    if let Ok(path) = str::from_utf8(path)
        && let Ok(mut file) = fs::open(rt, path)
    {
        return read_full(&mut file, buf);
    }
    0
}

// The same of the file that argument i names. Not inlined: its caller would hold the room of the name too.
#[inline(never)]
pub fn read_named(rt: &(impl Env + Files), i: usize, buf: &mut [u8]) -> usize
    ensures { IsPrefixLen result buf.new }
{
    let mut name = Argument::empty();
    name.read_argument(rt, i);
    read_file(rt, name.as_slice(), buf)
}

// Puts the bytes into the file that argument i names, in the place of what it held, and answers whether all are written.
pub fn write_named(rt: &(impl Env + Files), i: usize, bytes: &[u8]) -> bool {
    let mut name = Argument::empty();
    name.read_argument(rt, i);
    let Ok(path) = str::from_utf8(name.as_slice()) else {
        return false;
    };
    let Ok(mut file) = fs::create(rt, path) else {
        return false;
    };
    file.write_all(bytes).is_ok()
}

// A number with one more decimal digit.
fn with_digit(n: u64, digit: u8) -> Option<u64>
    ensures { result ≡ with_digit n digit }
{
    if !digit.is_ascii_digit() {
        return None;
    }
    n.checked_mul(10)?.checked_add(u64::from(digit - b'0'))
}

// The number that decimal digits name. `str::parse` would take a plus sign before them too.
#[tactic(auto, unfolding(crate::specs::Numerals::numeral_of))]
fn numeral_of(text: &[u8]) -> Option<u64>
    ensures { result ≡ numeral_of text.now }
{
    if text.is_empty() {
        return None;
    }
    let mut n = 0;
    for digit in text {
        n = with_digit(n, *digit)?;
    }
    Some(n)
}

// The number that argument i names.
pub fn named_number(rt: &impl Env, i: usize) -> Option<u64> {
    let mut name = Argument::empty();
    name.read_argument(rt, i);
    numeral_of(name.as_slice())
}

// Does what a call that writes said: puts what it wrote into the file that argument i names and prints the length, or prints the
// number of the refusal and leaves the file as it was.
pub fn deliver(
    rt: &(impl Env + Files + Print + Eprint),
    written: Result<usize, Refusal>,
    out: &[u8],
    i: usize,
)
    requires { Within written (length out.now) }
{
    match written {
        Err(refusal) => {
            let _ = println!(rt; "refused {refusal}");
        }
        Ok(n) => {
            if write_named(rt, i, &out[..n]) {
                let _ = println!(rt; "written {n}");
            } else {
                let _ = eprintln!(rt; "the output file cannot be written");
            }
        }
    }
}

// A program of three arguments, which name two files that a call reads and one for what it writes. With another count of arguments it
// prints its usage.
pub fn run_call<F: FnOnce(&[u8], &[u8], &mut [u8]) -> Result<usize, Refusal>>(
    rt: &(impl Env + Files + Print + Eprint),
    usage: &str,
    call: F,
)
    requires callable { F.IsAlwaysCallable call }
    requires within { (first : _) (second : _) (out : _) (said : _) (left : _) → F.post call first second out said left
        → Within said (length left.now) }
{
    if argument_count(rt) != 4 {
        let _ = eprintln!(rt; "{usage}");
        return;
    }
    let mut first = FileBytes::empty();
    first.read_named(rt, 1);
    let mut second = FileBytes::empty();
    second.read_named(rt, 2);
    let mut out = large_buffer();
    let written = call(first.as_slice(), second.as_slice(), &mut out);
    deliver(rt, written, &out, 3);
}
