// The hash and the keyed hash, with zeros for them where they are refused: a refusal hands no octets out. What it
// tells is each program's own, and `lines` knows no cipher.
use crate::lent::{Field, key_from};
use answers::Refusal;
use cipher::Fault;
use lines::{Answer, numbers, refused};

pub(crate) fn hash(line: &[u8]) -> Option<Answer> {
    numbers(line, b".G")?;
    Some(told(cipher::hash(Field::at(line, 1)?.as_slice())))
}

pub(crate) fn keyed_hash(line: &[u8]) -> Option<Answer> {
    numbers(line, b".G")?;
    Some(told(cipher::keyed_hash(key_from(0x20), Field::at(line, 1)?.as_slice())))
}

// The only fault that hashing has is an input that is too long; zeros are told for the hash then.
fn told(hash: Result<[u8; 16], Fault>) -> Answer {
    match hash {
        Ok(block) => Answer::done().hex(&block),
        Err(_) => refused(Refusal::Long).hex(&[0; 16]),
    }
}
