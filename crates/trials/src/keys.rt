// Requests on keys, and on the mark, that need no list. `bench` has them too, and each program its own of
// three lines: a library of both would have a contract for each, and so a definition of its line.
use crate::desk::Trials;
use lines::{Answer, array_of, numbers};

impl Trials {
    pub(crate) fn switch(&mut self, line: &[u8]) -> Option<Answer> {
        let [_, number, ..] = numbers(line, b".B")?;
        let after = board::switch(self.board?, u8::try_from(number).ok()?);
        Some(self.after(after))
    }

    pub(crate) fn link(&mut self, line: &[u8]) -> Option<Answer> {
        let [_, partner, ..] = numbers(line, b".AK")?;
        let after = board::add_link(self.board?, partner, array_of(text::field(line, 2)));
        Some(self.after(after))
    }

    pub(crate) fn unlink(&mut self, line: &[u8]) -> Option<Answer> {
        let [_, partner, ..] = numbers(line, b".A")?;
        let after = board::remove_link(self.board?, partner);
        Some(self.after(after))
    }

    pub(crate) fn marked(&mut self, line: &[u8]) -> Option<Answer> {
        let [_, stored, ..] = numbers(line, b".C")?;
        let after = board::move_mark(self.board?, u32::try_from(stored).ok()?);
        Some(self.after(after))
    }
}
