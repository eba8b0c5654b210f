// Slots, link entries, rows, the active slot and the mark, set as they are told, past every rule of
// the requests.
use crate::desk::Trials;
use board::{Link, Slot};
use lines::{Answer, array_of, numbers};

impl Trials {
    // No slot has a number above the last, nor has an entry.
    pub(crate) fn set_slot(&mut self, line: &[u8]) -> Option<Answer> {
        let [_, i, present, number, ..] = numbers(line, b".BBBK")?;
        let slot = Slot {
            present: flag(present)?,
            seq: u8::try_from(number).ok()?,
            key: array_of(text::field(line, 4)),
        };
        let board = self.board.as_mut()?;
        *board.slots.get_mut(i as usize)? = slot;
        Some(Answer::done())
    }

    pub(crate) fn set_link(&mut self, line: &[u8]) -> Option<Answer> {
        let [_, i, present, partner, _, floor, ..] = numbers(line, b".BBAKC")?;
        let link = Link {
            present: flag(present)?,
            partner,
            key: array_of(text::field(line, 4)),
            floor: u32::try_from(floor).ok()?,
        };
        let board = self.board.as_mut()?;
        *board.links.get_mut(i as usize)? = link;
        Some(Answer::done())
    }

    // The row is stored, whether it is lent or not.
    pub(crate) fn set_row(&mut self, line: &[u8]) -> Option<Answer> {
        let [_, row, sender, floor, ..] = numbers(line, b".SAC")?;
        let _board = self.board?;
        let row = row as usize;
        *self.lists.floors.get_mut(row)? = u32::try_from(floor).ok()?;
        *self.lists.addrs.get_mut(row)? = sender;
        Some(Answer::done())
    }

    // 255 stands for nobody; any other number for that slot, there or not.
    pub(crate) fn set_active(&mut self, line: &[u8]) -> Option<Answer> {
        let [_, i, ..] = numbers(line, b".B")?;
        let board = self.board.as_mut()?;
        board.active = match i {
            255 => None,
            _ => Some(i as usize),
        };
        Some(Answer::done())
    }

    pub(crate) fn set_mark(&mut self, line: &[u8]) -> Option<Answer> {
        let [_, mark, ..] = numbers(line, b".C")?;
        let board = self.board.as_mut()?;
        board.mark = u32::try_from(mark).ok()?;
        Some(Answer::done())
    }
}

// A number that is 1 or 0, as a slot or an entry is there or not.
fn flag(x: u64) -> Option<bool> {
    match x {
        0 => Some(false),
        1 => Some(true),
        _ => None,
    }
}
