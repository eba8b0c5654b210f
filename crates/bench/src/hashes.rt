// The hash and the keyed hash, which need no board.
use crate::desk::Field;
use answers::Refusal;
use cipher::Fault;
use lines::{Answer, array_of, numbers, refused};

pub(crate) fn hash(line: &[u8]) -> Option<Answer> {
    numbers(line, b".F")?;
    let input = Field::at(line, 1)?;
    Some(hashed(cipher::hash(input.as_slice())))
}

pub(crate) fn keyed_hash(line: &[u8]) -> Option<Answer> {
    numbers(line, b".KF")?;
    let input = Field::at(line, 2)?;
    Some(hashed(cipher::keyed_hash(array_of(text::field(line, 1)), input.as_slice())))
}

// The only fault that hashing has is an input that is too long. What it tells is each program's own, and `lines`
// knows no cipher.
fn hashed(hash: Result<[u8; 16], Fault>) -> Answer {
    match hash {
        Ok(block) => Answer::done().hex(&block),
        Err(_) => refused(Refusal::Long),
    }
}
