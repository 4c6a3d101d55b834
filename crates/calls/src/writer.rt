// Writing a file: where the output has room for it, section by section.

ghost use Rattle.std.specs.Prelude.{◌≡◌, ℕ, ◌+◌, ◌*◌, ◌≤◌, ◌<◌, List, [], map, length, get_or};
ghost use Rattle.numbers.specs.Number.{store};
ghost use Rattle.contents.specs.File.{file_of};
ghost use Rattle.sections.specs.Layout.{Kind, LengthsOf};
ghost use Rattle.calls.specs.Answer.{bytes, written_in, output_after};

use contents::BodyLengths;
use sections::Refusal;

// A file that a call has to write.
pub trait FileWriter: Copy {
    // Its kind, and its bodies in file order.
    ghost kind: { Kind };

    ghost bodies: { Self → List (List ℕ) };

    // The lengths of its bodies.
    fn body_lengths(self) -> BodyLengths
        ensures { LengthsOf kind (map length (bodies self)) result };

    // The length of the file.
    fn file_length(self) -> usize
        ensures { result ≡ length (file_of kind.number kind.first (bodies self)) };

    // Stores the body in a place at the start of what is lent.
    fn write_body(self, out: &mut [u8], place: usize)
        requires { (place < length (bodies self)) × (length (get_or (bodies self) place []) ≤ length out.old) }
        ensures { out.new ≡ store out.old 0 (get_or (bodies self) place []) };

    // Stores the file: its contents, then each body in its own stretch of the output.
    final fn write_file(self, out: &mut [u8])
        requires { length (file_of kind.number kind.first (bodies self)) ≤ length out.old }
        ensures { out.new ≡ store out.old 0 (file_of kind.number kind.first (bodies self)) }
    {
        let lengths = self.body_lengths();
        lengths.write_contents(out);
        for place in 0..lengths.sections {
            let at = lengths.section_start(place);
            self.write_body(&mut out[at..], place);
        }
    }

    // Writes the file, where the output has room for it, and says its length.
    final fn write_where_room(self, out: &mut [u8]) -> Result<usize, Refusal>
        ensures result { result ≡ written_in (bytes (file_of kind.number kind.first (bodies self))) out.old }
        ensures output { out.new ≡ output_after (bytes (file_of kind.number kind.first (bodies self))) out.old }
    {
        let size = self.file_length();
        if out.len() < size {
            return Err(Refusal::OutputLength);
        }
        self.write_file(out);
        Ok(size)
    }
}
