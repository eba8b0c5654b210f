// Frames opened, at both layers.
use crate::desk::{Bench, Field, lent};
use answers::{Opened, Refusal};
use lines::{Answer, lent_of, numbers, refused};

impl Bench {
    pub(crate) fn open(&mut self, line: &[u8]) -> Option<Answer> {
        numbers(line, b".F")?;
        let frame = Field::at(line, 1)?;
        let board = self.board?;
        let mut out = [0; 256];
        let room = lent_of(self.room, &out);
        let (addrs, floors) = lent(&mut self.lists);
        let found = network::open_frame(board, frame.as_slice(), addrs, floors, &mut out[..room]);
        let look = || network::look_frame(board, frame.as_slice());
        Some(told(found, &out, look))
    }

    // A refusal leaves the board as it was, so that the one before is the one to look with.
    pub(crate) fn open_aps(&mut self, line: &[u8]) -> Option<Answer> {
        let [_, given, ..] = numbers(line, b".AF")?;
        let frame = Field::at(line, 2)?;
        let board = self.board?;
        let mut out = [0; 256];
        let room = lent_of(self.room, &out);
        let received = aps::open_frame(board, frame.as_slice(), given, &mut out[..room]);
        let look = || aps::look_frame(board, frame.as_slice(), given);
        Some(told(self.left(received), &out, look))
    }
}

// The bench language, "Stale or forged": after 8, whether the tag fits.
fn told<F: FnOnce() -> bool>(found: Result<Opened, Refusal>, out: &[u8], look: F) -> Answer
    requires { F.IsAlwaysCallable look }
{
    match found {
        Ok(opened) => Answer::done()
            .address(opened.sender)
            .decimal_or(opened.protection.map(u64::from), b"none")
            .hex(text::front(out, opened.length)),
        Err(Refusal::Stale) => {
            let verdict = if look() { b"genuine" } else { b"altered" };
            refused(Refusal::Stale).word(verdict)
        }
        Err(why) => refused(why),
    }
}
