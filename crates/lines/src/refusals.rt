// The answer that refuses, in the words of the bench language, and the one of a request that has nothing to tell.
ghost use Rattle.std.specs.Prelude.{◌≡◌};
ghost use Rattle.lines.specs.Answer.{said};
ghost use Rattle.lines.specs.Refusals.{refusal, told};

use crate::answer::Answer;
use answers::Refusal;

// `refused`, the refusal's number and its word. The words stand in the order of the numbers, which
// start at 1.
#[tactic(auto, using(crate::proofs::Refusing::refused_so), unfolding(crate::specs::Answer::field))]
pub fn refused(why: Refusal) -> Answer
    ensures { said result ≡ refusal why }
{
    let n = u8::from(why);
    let word = text::field(
        b"\troom\tlong\tshort\tform\tsecurity\tnokey\ttop\tstale\tforged\tfull\tcommand\tprotection\tabsent\targument\tlabel\tcrc\tmark",
        usize::from(n),
    );
    // In place: each field that is added by value copies the whole answer.
    let mut answer = Answer::first(b"refused");
    answer.push(b"\t");
    answer.push_decimal(u64::from(n));
    answer.push(b"\t");
    answer.push(word);
    answer
}

// What comes of a request that tells nothing but that it was done, or why it was refused.
pub fn told(outcome: Result<(), Refusal>) -> Answer
    ensures { said result ≡ told outcome }
{
    match outcome {
        Ok(()) => Answer::done(),
        Err(why) => refused(why),
    }
}
