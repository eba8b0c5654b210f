// The requests that change keys, two of which are lent the lists, and the mark, moved ahead by the two
// lines of a step. `trials` has most of them too, and each program its own of three lines: a library of
// both would have a contract for each, and so a definition of its line.
use crate::desk::{Bench, lent};
use lines::{Answer, array_of, numbers, told};

impl Bench {
    pub(crate) fn network(&mut self, line: &[u8]) -> Option<Answer> {
        let [_, slot, number, ..] = numbers(line, b".BBK")?;
        let number = u8::try_from(number).ok()?;
        let board = self.board?;
        let (addrs, floors) = lent(&mut self.lists);
        let after = board::install(
            board,
            addrs,
            floors,
            slot as usize,
            number,
            array_of(text::field(line, 3)),
        );
        Some(told(self.left(after)))
    }

    pub(crate) fn switch(&mut self, line: &[u8]) -> Option<Answer> {
        let [_, number, ..] = numbers(line, b".B")?;
        let after = board::switch(self.board?, u8::try_from(number).ok()?);
        Some(told(self.left(after)))
    }

    pub(crate) fn link(&mut self, line: &[u8]) -> Option<Answer> {
        let [_, partner, ..] = numbers(line, b".AK")?;
        let after = board::add_link(self.board?, partner, array_of(text::field(line, 2)));
        Some(told(self.left(after)))
    }

    pub(crate) fn unlink(&mut self, line: &[u8]) -> Option<Answer> {
        let [_, partner, ..] = numbers(line, b".A")?;
        let after = board::remove_link(self.board?, partner);
        Some(told(self.left(after)))
    }

    pub(crate) fn forget(&mut self, line: &[u8]) -> Option<Answer> {
        let [_, slot, sender, ..] = numbers(line, b".BA")?;
        let _board = self.board?;
        let (addrs, floors) = lent(&mut self.lists);
        Some(told(board::forget(addrs, floors, slot as usize, sender)))
    }

    pub(crate) fn mark(&self, line: &[u8]) -> Option<Answer> {
        numbers(line, b".")?;
        let mark = board::next_mark(self.board?);
        Some(Answer::done().decimal(u64::from(mark)))
    }

    pub(crate) fn marked(&mut self, line: &[u8]) -> Option<Answer> {
        let [_, stored, ..] = numbers(line, b".C")?;
        let after = board::move_mark(self.board?, u32::try_from(stored).ok()?);
        Some(told(self.left(after)))
    }
}
