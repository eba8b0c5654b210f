// The board made, and what is lent.
use crate::desk::Bench;
use lines::{Answer, Lists, numbers, told};

impl Bench {
    // A board with fresh lists, of which as much is lent as before. A refused board is not taken: the
    // old one stays, with its lists. A line without a mark is that of a new store, which has 0.
    pub(crate) fn make(&mut self, line: &[u8]) -> Option<Answer> {
        let [_, own, found, ..] = numbers(line, b".A").or(numbers(line, b".AC"))?;
        let made = board::make(own, u32::try_from(found).ok()?);
        if made.answer.is_ok() {
            self.board = Some(made.board);
            self.lists = Lists::new(self.lists.rows, self.lists.tops);
        }
        Some(told(made.answer))
    }

    // No more is lent than there is.
    pub(crate) fn lend(&mut self, line: &[u8]) -> Option<Answer> {
        let [_, room, rows, tops, ..] = numbers(line, b".SSS")?;
        if room > 256 || rows > 1024 || tops > 1024 {
            return None;
        }
        self.room = room as usize;
        self.lists.rows = rows as usize;
        self.lists.tops = tops as usize;
        Some(Answer::done())
    }
}
