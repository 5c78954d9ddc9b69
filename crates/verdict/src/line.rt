// Writing a verdict as one line of text.
ghost use Rattle.std.specs.Prelude.{◌≡◌, ◌+◌, ◌≤◌, length};
ghost use Rattle.verdict.specs.Lines.{decimal, text_of};
ghost use Rattle.verdict.specs.Answers.{Appends, LineAnswer};

use crate::Verdict;
use itoa::Buffer;
use logic::refusal::BadLength;

/// The buffer has fewer than 33 bytes.
pub type LineFault = BadLength<20>;

/// The length of the longest line: `refused 4294967295 at 4294967295` and a line feed.
pub const LONGEST: usize = 33;

// A lent buffer that is written from the front on.
#[derive(Drop)]
struct Cursor<'a> {
    out: &'a mut [u8],
    // how many bytes are written
    at: usize,
}

// Decimals are those of the library `itoa`, whose contract gives the digits.
impl Cursor<'_> {
    fn text(&mut self, text: &[u8])
        requires { self.old.at + length text.now ≤ length self.old.out.now }
        ensures { Appends text.now self.old self.new }
    {
        let end = self.at + text.len();
        self.out[self.at..end].copy_from_slice(text);
        self.at = end;
    }

    // The number in decimal, at most ten digits.
    #[tactic(auto, using(crate::proofs::Decimals::same))]
    fn number(&mut self, n: u32)
        requires { self.old.at + 10 ≤ length self.old.out.now }
        ensures written { Appends (decimal n) self.old self.new }
        ensures short { self.new.at ≤ self.old.at + 10 }
    {
        self.text(Buffer::new().format(n).as_bytes());
    }

    // The line without its line feed.
    fn verdict(&mut self, verdict: Verdict)
        requires { self.old.at + 32 ≤ length self.old.out.now }
        ensures written { Appends (text_of verdict) self.old self.new }
        ensures short { self.new.at ≤ self.old.at + 32 }
    {
        match verdict {
            Verdict::Closed(entries) => {
                self.text(b"closed, entries used ");
                self.number(entries);
            }
            Verdict::Satisfied(elements) => {
                self.text(b"satisfied, elements ");
                self.number(elements);
            }
            Verdict::Refused { number, place } => {
                self.text(b"refused ");
                self.number(number);
                self.text(b" at ");
                self.number(place);
            }
        }
    }
}

/// Writes the line of a verdict at the front of a buffer and returns its length. The bytes past it stay unchanged. A
/// buffer of fewer than `LONGEST` bytes is refused and stays unchanged.
pub fn line(verdict: Verdict, out: &mut [u8]) -> Result<usize, LineFault>
    ensures { LineAnswer verdict out.old out.new result }
{
    if out.len() < LONGEST {
        return Err(BadLength(out.len()));
    }
    let mut line = Cursor { out, at: 0 };
    line.verdict(verdict);
    line.text(b"\n");
    Ok(line.at)
}
