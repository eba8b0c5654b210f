// Labels printed, with the whole output, and read, with the octets that a refusal answers.
use crate::answer::counted;
use crate::lent::{Field, Output};
use lines::{Answer, numbers, refused};

pub(crate) fn print(line: &[u8]) -> Option<Answer> {
    let [_, room, ..] = numbers(line, b".SG")?;
    let code = Field::at(line, 2)?;
    let mut out = Output::new(room)?;
    let printed = labels::print_label(code.as_slice(), out.lent());
    Some(counted(printed).hex(out.as_slice()))
}

// A refusal leaves no code and no key, for which zeros are told.
pub(crate) fn label(line: &[u8]) -> Option<Answer> {
    numbers(line, b".G")?;
    Some(match labels::read_label(Field::at(line, 1)?.as_slice()) {
        Ok(label) => Answer::done()
            .decimal(label.length as u64)
            .hex(&label.code)
            .hex(&label.key),
        Err(why) => refused(why).hex(&[0; 16]).hex(&[0; 16]),
    })
}
