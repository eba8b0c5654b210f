// Requests on frames, which need no board.
use crate::desk::Field;
use answers::Refusal;
use frames::{Auxiliary, Layer, Read, Secured};
use lines::{Answer, numbers, refused};

pub(crate) fn frame(line: &[u8]) -> Option<Answer> {
    numbers(line, b".F")?;
    let f = Field::at(line, 1)?;
    Some(told(frames::read_frame(Layer::Network, f.as_slice(), 0)))
}

pub(crate) fn aps_frame(line: &[u8]) -> Option<Answer> {
    let [_, sender, ..] = numbers(line, b".AF")?;
    let f = Field::at(line, 2)?;
    Some(told(frames::read_frame(Layer::Aps, f.as_slice(), sender)))
}

fn told(found: Result<Read, Refusal>) -> Answer {
    match found {
        Ok(Read::Plain(h)) => plain(h),
        Ok(Read::Secured(s)) => secured(s),
        Err(why) => refused(why),
    }
}

fn plain(h: usize) -> Answer {
    Answer::done().word(b"plain").decimal(h as u64)
}

fn secured(s: Secured) -> Answer {
    Answer::done()
        .word(b"secured")
        .decimal(s.header as u64)
        .decimal(s.aux as u64)
        .decimal(u64::from(s.control))
        .decimal(u64::from(s.counter))
        .address(s.sender)
        .decimal(u64::from(s.sequence))
}

pub(crate) fn plain_frame(layer: Layer, line: &[u8]) -> Option<Answer> {
    numbers(line, b".F")?;
    let f = Field::at(line, 1)?;
    Some(match frames::read_plain(layer, f.as_slice()) {
        Ok(h) => plain(h),
        Err(why) => refused(why),
    })
}

pub(crate) fn nonce(line: &[u8]) -> Option<Answer> {
    let [_, sender, count, control, ..] = numbers(line, b".ACB")?;
    let n = frames::nonce(
        sender,
        u32::try_from(count).ok()?,
        u8::try_from(control).ok()?,
    );
    Some(Answer::done().hex(&n))
}

// Identifier 1 alone has a sequence number behind the sender.
pub(crate) fn aux(line: &[u8]) -> Option<Answer> {
    let [_, identifier, counter, sender, sequence, ..] = numbers(line, b".BCAB")?;
    let aux = Auxiliary {
        identifier: u8::try_from(identifier).ok()?,
        counter: u32::try_from(counter).ok()?,
        sender,
        sequence: u8::try_from(sequence).ok()?,
    };
    let mut out = [0xee; 14];
    frames::lay_auxiliary(&mut out, 0, aux);
    let n = if identifier % 4 == 1 { 14 } else { 13 };
    Some(Answer::done().hex(&out[..n]))
}

pub(crate) fn auth(line: &[u8]) -> Option<Answer> {
    let [_, h, n, ..] = numbers(line, b".BBF")?;
    let f = Field::at(line, 3)?;
    let mut out = [0xee; 32];
    frames::lay_authenticated(&mut out, f.as_slice(), h as usize, n as usize);
    Some(Answer::done().hex(&out))
}

// The header that a routine lays, of the plain or of the secured frame of a layer, 0 or 1.
pub(crate) fn header<F: Fn(&mut [u8], Layer, &[u8], usize)>(lay: F, line: &[u8]) -> Option<Answer>
    requires { F.IsAlwaysCallable lay }
{
    let [_, layer, h, ..] = numbers(line, b".BBF")?;
    let layer = match layer {
        0 => Layer::Network,
        1 => Layer::Aps,
        _ => return None,
    };
    let f = Field::at(line, 3)?;
    let mut out = [0xee; 32];
    lay(&mut out, layer, f.as_slice(), h as usize);
    Some(Answer::done().hex(&out))
}
