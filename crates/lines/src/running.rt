// A program that talks in lines: it reads its input line by line and answers each by one line.
ghost use Rattle.std.specs.Prelude.{ℕ, ◌^◌, ◌<◌, List, [], length, Option, IfOk, OnOk, IfSome, option_map, ⊤};
ghost use Rattle.std.specs.Io.KnownBytes.{Appends, IsAtEnd};
ghost use Rattle.lines.specs.Answer.{bad, said, whole_line};
ghost use Rattle.lines.specs.Passing.{handing, standing};
ghost use Rattle.lines.specs.Running.{Told, lines_in, or_bad};
ghost use Rattle.lines.specs.Code.{Passes};

use crate::answer::Answer;
use crate::reader::Reader;
use crate::reading::is_silent;
use std::io;
use std::io::{Read, Write};

// What answers the lines, and what stays from one to the next.
pub trait Desk {
    // From the first state a line may be answered by these octets, or by none, and the second state is left. By itself
    // nothing is said of it.
    ghost answers: { Self → List ℕ → Option (List ℕ) → Self → Type 0 } = { λ _ _ _ _. ⊤ };

    // The answer to a line; none where it is no request.
    fn answer(&mut self, line: &[u8]) -> Option<Answer>
        ensures { answers self.old line.now (option_map said result) self.new };
}

// Answers each line as soon as it has ended, so that it stays in step with a writer that waits for each answer.
// Nothing says that the input ends, so the turns are counted, up to more than it can have. A failed read or write
// ends the run.
pub fn run<R: Read, W: Write, D: Desk>(
    input: &mut R,
    output: &mut W,
    desk: &mut D,
) -> io::Result<()>
    ensures told { OnOk result (IfSome (R.remaining input.old) (λ l. length l < 2 ^ 63
        → Told D.answers (lines_in 2048 l) desk.old (W.contents output.old) desk.new (W.contents output.new))) }
    ensures end { OnOk result (IfSome (R.remaining input.old) (λ l. length l < 2 ^ 63
        → IsAtEnd (R.remaining input.new))) }
{
    let mut chunk = [0u8; 4096];
    let mut line = [0u8; 2048];
    let mut reader = Reader::new();
    for _ in 0..u64::MAX {
        if !reader.live {
            break;
        }
        reader = read_on(input, reader, &mut chunk, &mut line)?;
        answer_line(output, reader, &line, desk)?;
    }
    Ok(())
}

// Reads on in the chunk; where all of it was read, reads the next one, of what is there.
fn read_on<R: Read>(
    input: &mut R,
    reader: Reader,
    chunk: &mut [u8],
    line: &mut [u8],
) -> io::Result<Reader>
    ensures { IfOk result (λ r. 0 < length chunk.old
        → Passes (length line.old) (standing reader chunk.old line.old) (R.remaining input.old)
        (standing r chunk.new line.new) (R.remaining input.new)) }
{
    if !reader.is_spent(chunk) {
        return Ok(reader.turn(chunk, line));
    }
    let n = input.read(chunk)?;
    Ok(reader.refilled(chunk, n))
}

// Answers a line that has ended, by its line feed or with the input. An empty line has no answer, nor has the
// nothing behind the last line feed. `bad` is a line that is no request, and one that there is no room for. What
// tells an answer stands in functions of its own, since room for one is cleared where a function begins that has it:
// here it would be cleared for a line without an answer too, and at each turn that ends no line.
fn answer_line<W: Write, D: Desk>(
    output: &mut W,
    reader: Reader,
    line: &[u8],
    desk: &mut D,
) -> io::Result<()>
    ensures { OnOk result ((l : List ℕ)
        → Told D.answers (handing (standing reader l line.now) []) desk.old (W.contents output.old)
        desk.new (W.contents output.new)) }
{
    let read = reader.stop.line;
    let there = text::front(line, read.at);
    if !reader.is_due() || is_silent(there) {
        return Ok(());
    }
    if read.long {
        return tell_bad(output, reader.number);
    }
    ask(output, reader.number, there, desk)
}

// What the desk answers to a line, told.
fn ask<W: Write, D: Desk>(output: &mut W, number: u64, line: &[u8], desk: &mut D) -> io::Result<()>
    ensures { OnOk result ((a : Option (List ℕ)) × (D.answers desk.old line.now a desk.new
        × Appends (W.contents output.old) (W.contents output.new) (whole_line number (or_bad a)))) }
{
    match desk.answer(line) {
        Some(answer) => tell(output, number, &answer),
        None => tell_bad(output, number),
    }
}

fn tell_bad<W: Write>(output: &mut W, number: u64) -> io::Result<()>
    ensures { OnOk result (Appends (W.contents output.old) (W.contents output.new) (whole_line number bad)) }
{
    tell(output, number, &Answer::bad())
}

// Writes an answer behind its line's number.
fn tell<W: Write>(output: &mut W, number: u64, answer: &Answer) -> io::Result<()>
    ensures { OnOk result (Appends (W.contents output.old) (W.contents output.new)
        (whole_line number (said answer.now))) }
{
    output.write_all(answer.whole_line(number).as_slice())
}
