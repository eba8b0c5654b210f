// Requests that are lent the lists, and how much of them is lent. Those of `bench` are its own, as in `keys`.
use crate::desk::{Trials, lent};
use lines::{Answer, Lists, array_of, numbers, told};

impl Trials {
    // A board with fresh lists, of which as much is lent as before. A refused board is not taken: the
    // old one stays.
    pub(crate) fn make(&mut self, line: &[u8]) -> Option<Answer> {
        let [_, own, ..] = numbers(line, b".A")?;
        let made = board::make(own, 0);
        if made.answer.is_ok() {
            self.board = Some(made.board);
            self.lists = Lists::new(self.lists.rows, self.lists.tops);
        }
        Some(told(made.answer))
    }

    pub(crate) fn lend(&mut self, line: &[u8]) -> Option<Answer> {
        let [_, rows, tops, ..] = numbers(line, b".SS")?;
        if rows > 1026 || tops > 1026 {
            return None;
        }
        self.lists.rows = rows as usize;
        self.lists.tops = tops as usize;
        Some(Answer::done())
    }

    pub(crate) fn network(&mut self, line: &[u8]) -> Option<Answer> {
        let [_, slot, number, ..] = numbers(line, b".BBK")?;
        let number = u8::try_from(number).ok()?;
        let board = self.board?;
        let (addrs, floors) = lent(&mut self.lists);
        let after = board::install(
            board,
            addrs,
            floors,
            slot as usize,
            number,
            array_of(text::field(line, 3)),
        );
        Some(self.after(after))
    }

    pub(crate) fn forget(&mut self, line: &[u8]) -> Option<Answer> {
        let [_, slot, sender, ..] = numbers(line, b".BA")?;
        let _board = self.board?;
        let (addrs, floors) = lent(&mut self.lists);
        Some(told(board::forget(addrs, floors, slot as usize, sender)))
    }
}
