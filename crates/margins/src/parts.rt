// Parts of a command's frame, each asked for alone.
use crate::lent::Field;
use lines::{Answer, numbers, protection_of};

// The part that a routine hands back.
pub(crate) fn part<F: Fn(&[u8], Option<u8>) -> &[u8]>(line: &[u8], of: F) -> Option<Answer>
    requires { F.IsAlwaysCallable of }
{
    let [_, protection, ..] = numbers(line, b".TG")?;
    let frame = Field::at(line, 2)?;
    Some(Answer::done().hex(of(frame.as_slice(), protection_of(protection))))
}

pub(crate) fn value(line: &[u8]) -> Option<Answer> {
    let [_, protection, tag, ..] = numbers(line, b".TBG")?;
    let frame = Field::at(line, 3)?;
    let tag = u8::try_from(tag).ok()?;
    let found = commands::value_of(frame.as_slice(), protection_of(protection), tag);
    Some(Answer::done().hex(found))
}
