// The reader of a program's input: where it stands, and one turn of it.
ghost use Rattle.std.specs.Prelude.{◌≡◌, ℕ, List, length, take};
ghost use Rattle.octets.specs.Lists.{onto};
ghost use Rattle.lines.specs.Passing.{standing, at_start, begun, spent, turned, filled, due};

use crate::reading::{Line, Stop};

// Where it stopped in the chunk that was read last, how many octets that has, the number of the
// line, and whether the input goes on.
#[derive(Clone, Copy)]
pub struct Reader {
    pub stop: Stop,
    pub to: usize,
    pub number: u64,
    pub live: bool,
}

impl Reader {
    // A reader before the first chunk.
    pub fn new() -> Self
        ensures { (l b : List ℕ) → standing result l b ≡ at_start }
    {
        Reader {
            stop: Stop::at(0),
            to: 0,
            number: 1,
            live: true,
        }
    }

    // Whether all of the chunk was read, so that the next one is wanted.
    #[tactic(auto, using(crate::proofs::Turned::empty_left), unfolding(crate::specs::Passing::spent))]
    pub fn is_spent(&self, chunk: &[u8]) -> bool
        ensures { (b : List ℕ) → result ≡ spent (standing self.now chunk.now b) }
    {
        text::front(chunk, self.to).len() <= self.stop.from
    }

    // Reads on, to the end of the line or of the chunk; behind a line that has ended the next one is
    // begun. Behind the line's octets the buffer stays as it was.
    pub fn turn(self, chunk: &[u8], buf: &mut [u8]) -> Self
        ensures buf_after { standing result chunk.now buf.new ≡ turned (length buf.old) (standing self chunk.now buf.old) }
        ensures leaves { buf.new ≡ onto (take result.stop.line.at buf.new) buf.old }
    {
        let now = self.begun_line();
        let line = now.stop.line;
        let stop = line.read_on(text::front(chunk, now.to), now.stop.from, buf);
        Reader { stop, ..now }
    }

    // The next chunk is the first n octets of that; where these are none the input has ended.
    #[tactic(auto, using(crate::proofs::Turned::empty_none), unfolding(crate::specs::Passing::filled))]
    pub fn refilled(self, chunk: &[u8], n: usize) -> Self
        ensures { (l b : List ℕ) → standing result chunk.now b ≡ filled (standing self l b) (take n chunk.now) }
    {
        let now = self.begun_line();
        let there = text::front(chunk, n).len() != 0;
        Reader {
            stop: Stop {
                ended: false,
                from: 0,
                ..now.stop
            },
            to: n,
            live: now.live && there,
            ..now
        }
    }

    // Whether the line is to be answered now: it has ended, by its line feed or with the input.
    #[tactic(auto, unfolding(crate::specs::Passing::due))]
    pub fn is_due(&self) -> bool
        ensures { (l b : List ℕ) → result ≡ due (standing self.now l b) }
    {
        self.stop.ended || !self.live
    }

    // The next line, where one has ended.
    #[tactic(auto, unfolding(crate::specs::Passing::begun, crate::specs::Passing::number_after))]
    fn begun_line(self) -> Self
        ensures { (l b : List ℕ) → standing result l b ≡ begun (standing self l b) }
    {
        if !self.stop.ended {
            return self;
        }
        Reader {
            stop: Stop::at(self.stop.from),
            number: self.number.wrapping_add(1),
            ..self
        }
    }
}
