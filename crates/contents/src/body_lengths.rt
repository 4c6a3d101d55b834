// The lengths of a file's bodies, with its kind: where each body begins, and the file's contents.
ghost use Rattle.std.specs.Prelude.{take, ◌≤◌};
ghost use Rattle.contents.specs.File.{Listable};

use crate::{is_sized, section_start, write_contents};

// A file's kind, the number of its first section, how many sections it has, and the length of each body. The array has room for twelve, the most
// that a kind has: there is no heap.
#[derive(Clone, Copy)]
pub struct BodyLengths {
    pub kind: u64,
    pub first: u64,
    pub sections: usize,
    pub lengths: [usize; 12],
    pub ghost few: { sections ≤ 12 },
    pub ghost listable: { Listable first (take sections lengths) },
}

impl BodyLengths {
    ghost use Rattle.std.specs.Prelude.{◌≡◌, ◌+◌, ◌*◌, ◌<◌, ◌^◌, length};
    ghost use Rattle.numbers.specs.Number.{store};
    ghost use Rattle.contents.specs.Contents.{sized};
    ghost use Rattle.contents.specs.File.{start, contents_bytes};
    ghost use Rattle.contents.specs.Lengths.{lengths_in};

    // Rows 4, 13 and 23.
    pub fn is_sized(self, s: &[u8]) -> bool
        requires { 2 + 9 * self.sections ≤ length s.now }
        ensures { result ≡ sized s.now (lengths_in self) }
    {
        is_sized(s, &self.lengths[..self.sections])
    }

    // Where the body in a place begins; after the last place, where the file ends.
    pub fn section_start(self, place: usize) -> usize
        requires { place ≤ self.sections }
        ensures { (result ≡ start (lengths_in self) place) × (result < 2 ^ 32) }
    {
        section_start(&self.lengths[..self.sections], place)
    }

    // The length of the file.
    pub fn file_length(self) -> usize
        ensures { (result ≡ start (lengths_in self) self.sections) × (result < 2 ^ 32) }
    {
        self.section_start(self.sections)
    }

    // Stores the contents of the file.
    pub fn write_contents(self, out: &mut [u8])
        requires { 2 + 9 * self.sections ≤ length out.old }
        ensures { out.new ≡ store out.old 0 (contents_bytes self.kind self.first (lengths_in self)) }
    {
        write_contents(out, self.kind, self.first, &self.lengths[..self.sections]);
    }
}
