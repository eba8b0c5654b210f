// A line that is being read, whichever chunks the input comes in.
ghost use Rattle.std.specs.Prelude.{◌≡◌, ℕ, ◌==◌, false, List, length, take, drop, position};
ghost use Rattle.octets.specs.Lists.{onto};
ghost use Rattle.lines.specs.Lines.{silent};
ghost use Rattle.lines.specs.Reading.{held, unread, all_fed, reached, stopped, read_on};

// How many octets of the line stand at the front of the lent buffer, and whether it has more than
// there is room for.
#[derive(Clone, Copy)]
pub struct Line {
    pub at: usize,
    pub long: bool,
}

// Where reading stopped: the line, whether its line feed was met, and the place in the chunk behind
// what was read.
#[derive(Clone, Copy)]
pub struct Stop {
    pub line: Line,
    pub ended: bool,
    pub from: usize,
}

impl Stop {
    // Before a line, at that place of the chunk.
    pub fn at(from: usize) -> Self
        ensures { (l b : List ℕ) → stopped result l b ≡ reached unread false (drop from l) }
    {
        Stop {
            line: Line::new(),
            ended: false,
            from,
        }
    }
}

impl Line {
    // A line of which nothing was read.
    pub fn new() -> Self
        ensures { (b : List ℕ) → held result b ≡ unread }
    {
        Line { at: 0, long: false }
    }

    // Reads on from a place in the chunk, to the end of the line or of the chunk. The octets of a line
    // that is too long are not kept, but for those that there is room for. Behind the line's octets the
    // buffer stays as it was.
    #[tactic(auto, using(crate::proofs::Fed::read_ended, crate::proofs::Fed::read_open))]
    pub fn read_on(self, chunk: &[u8], from: usize, buf: &mut [u8]) -> Stop
        ensures buf_after { stopped result chunk.now buf.new ≡ read_on (length buf.old) (held self buf.old) (drop from chunk.now) }
        ensures leaves { buf.new ≡ onto (take result.line.at buf.new) buf.old }
    {
        let start = from.min(chunk.len());
        let rest = &chunk[start..];
        match line_feed(rest) {
            Some(k) => Stop {
                line: self.feed(&rest[..k], buf),
                ended: true,
                from: start + k + 1,
            },
            None => Stop {
                line: self.feed(rest, buf),
                ended: false,
                from: chunk.len(),
            },
        }
    }

    // More octets of a line.
    fn feed(self, part: &[u8], buf: &mut [u8]) -> Self
        ensures buf_after { held result buf.new ≡ all_fed (length buf.old) (held self buf.old) part.now }
        ensures leaves { buf.new ≡ onto (take result.at buf.new) buf.old }
    {
        let at = self.at.min(buf.len());
        let n = part.len().min(buf.len() - at);
        buf[at..at + n].copy_from_slice(&part[..n]);
        Line {
            at: at + n,
            long: self.long || n < part.len(),
        }
    }
}

// Where the first line feed stands.
fn line_feed(chunk: &[u8]) -> Option<usize>
    ensures { result ≡ position (λ c. c == 10) chunk.now }
{
    chunk.iter().position(|c| *c == b'\n')
}

// Whether a line gets no answer: it is empty, or starts with `#`.
#[tactic(auto, unfolding(crate::specs::Lines::silent))]
pub fn is_silent(line: &[u8]) -> bool
    ensures { result ≡ silent line.now }
{
    match line.first() {
        Some(c) => *c == b'#',
        None => true,
    }
}
