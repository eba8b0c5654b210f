// An answer that is being written, by value: each method adds one field.
ghost use Rattle.std.specs.Prelude.{◌≡◌, []};
ghost use Rattle.text.specs.Decimal.{decimal as spelt};
ghost use Rattle.text.specs.Hex.{hex_of, address as addressed};
ghost use Rattle.lines.specs.Answer.{room, ok, bad, said, written, more, field, spelt_or, whole_line};

use crate::buffer::Octets;

// The longest answer of the programs tells 1,026 rows behind `ok`, with at most 33 octets each.
const ROOM: usize = 2 + 1026 * 33;

// An answer of that many octets, its line's number of 20 digits, a tab and a line feed.
const WHOLE: usize = ROOM + 22;

// What follows a line's number.
pub type Answer = Octets<ROOM>;

// A line of the output.
pub type Whole = Octets<WHOLE>;

#[tactic(auto, unfolding(crate::specs::Answer::field))]
impl Answer {
    // The answer that begins with that word.
    pub fn first(word: &[u8]) -> Self
        ensures { said result ≡ more room [] word.now }
    {
        let mut answer = Octets::new();
        answer.push(word);
        answer
    }

    // The answer to a request that was done: what it has to tell comes behind.
    #[tactic(auto, unfolding(crate::specs::Answer::more))]
    pub fn done() -> Self
        ensures { said result ≡ ok }
    {
        Answer::first(b"ok")
    }

    // The answer to a line that is no request.
    #[tactic(auto, unfolding(crate::specs::Answer::more))]
    pub fn bad() -> Self
        ensures { said result ≡ bad }
    {
        Answer::first(b"bad")
    }

    // A field more, behind a tab. What has no room is left out.
    pub fn word(mut self, w: &[u8]) -> Self
        ensures { said result ≡ field (said self) w.now }
    {
        self.push(b"\t");
        self.push(w);
        self
    }

    pub fn decimal(mut self, x: u64) -> Self
        ensures { said result ≡ field (said self) (spelt x) }
    {
        self.push(b"\t");
        self.push_decimal(x);
        self
    }

    // A number in decimal, or that word where there is none.
    pub fn decimal_or(self, x: Option<u64>, none: &[u8]) -> Self
        ensures { said result ≡ field (said self) (spelt_or x none.now) }
    {
        match x {
            Some(x) => self.decimal(x),
            None => self.word(none),
        }
    }

    pub fn address(mut self, x: u64) -> Self
        ensures { said result ≡ field (said self) (addressed x) }
    {
        self.push(b"\t");
        self.push_address(x);
        self
    }

    pub fn hex(mut self, src: &[u8]) -> Self
        ensures { said result ≡ field (said self) (hex_of src.now) }
    {
        self.push(b"\t");
        self.push_hex(src);
        self
    }

    // The line that is written: all of it has room, whatever the number and the answer.
    pub fn whole_line(&self, number: u64) -> Whole
        ensures { written result ≡ whole_line number (said self.now) }
    {
        let mut line = Octets::new();
        line.push_decimal(number);
        line.push(b"\t");
        line.push(self.as_slice());
        line.push(b"\n");
        line
    }
}
