// The requests: each reads its fields, calls one routine and tells its answer.
use answers::Refusal;
use cipher::Fault;
use lines::{Answer, Desk, Octets, array_of, lent_of, numbers, refused};

// How many octets of output the lines are lent from now on.
#[derive(Drop)]
pub struct Vectors {
    pub lent: usize,
}

impl Desk for Vectors {
    fn answer(&mut self, line: &[u8]) -> Option<Answer> {
        match text::field(line, 0) {
            b"aes" => aes(line),
            b"seal" => ccm(cipher::seal, line, self.lent),
            b"open" => ccm(cipher::unseal, line, self.lent),
            b"hash" => hash(line),
            b"keyedhash" => keyed_hash(line),
            b"lend" => self.lend(line),
            _ => None,
        }
    }
}

impl Vectors {
    fn lend(&mut self, line: &[u8]) -> Option<Answer> {
        let [_, lent, ..] = numbers(line, b".S")?;
        if lent > 256 {
            return None;
        }
        self.lent = lent as usize;
        Some(Answer::done())
    }
}

fn aes(line: &[u8]) -> Option<Answer> {
    numbers(line, b".KK")?;
    let made = cipher::aes128_block(
        array_of(text::field(line, 1)),
        array_of(text::field(line, 2)),
    );
    Some(Answer::done().hex(&made))
}

// The number of a field of octets is how many they are; a nonce has 13.
fn ccm<F>(routine: F, line: &[u8], lent: usize) -> Option<Answer>
where
    F: Fn(usize, [u8; 16], [u8; 13], &[u8], &[u8], &mut [u8]) -> Result<usize, Fault>,
    requires { F.IsAlwaysCallable routine }
{
    let [_, tag, _, nonce, ..] = numbers(line, b".BKFFF")?;
    if nonce != 13 {
        return None;
    }
    let authenticated: Octets<256> = Octets::at(line, 4)?;
    let data: Octets<256> = Octets::at(line, 5)?;
    let mut out = [0; 256];
    let room = lent_of(lent, &out);
    let made = routine(
        tag as usize,
        array_of(text::field(line, 2)),
        array_of(text::field(line, 3)),
        authenticated.as_slice(),
        data.as_slice(),
        &mut out[..room],
    );
    Some(match made {
        Ok(n) => Answer::done().hex(text::front(&out, n)),
        Err(fault) => refused(refusal_of(fault)),
    })
}

// An input of up to 512 octets is tried.
fn hash(line: &[u8]) -> Option<Answer> {
    numbers(line, b".G")?;
    let input: Octets<512> = Octets::at(line, 1)?;
    Some(hashed(cipher::hash(input.as_slice())))
}

fn keyed_hash(line: &[u8]) -> Option<Answer> {
    numbers(line, b".KG")?;
    let input: Octets<512> = Octets::at(line, 2)?;
    Some(hashed(cipher::keyed_hash(array_of(text::field(line, 1)), input.as_slice())))
}

// Each program tells a hash in its own way, and `lines` knows no cipher.
fn hashed(hash: Result<[u8; 16], Fault>) -> Answer {
    match hash {
        Ok(block) => Answer::done().hex(&block),
        Err(fault) => refused(refusal_of(fault)),
    }
}

// The cipher's faults are refusals of the same names and numbers. No From: `cipher` and `answers` don't know each
// other, and a program can't give one for both.
fn refusal_of(fault: Fault) -> Refusal {
    match fault {
        Fault::Room => Refusal::Room,
        Fault::Long => Refusal::Long,
        Fault::Short => Refusal::Short,
        Fault::Forged => Refusal::Forged,
        Fault::Argument => Refusal::Argument,
    }
}
