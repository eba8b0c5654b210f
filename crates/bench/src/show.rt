// What a board holds.
use crate::desk::Bench;
use answers::Refusal;
use lines::{Answer, lent_of, numbers, refused};

impl Bench {
    pub(crate) fn state(&self, line: &[u8]) -> Option<Answer> {
        numbers(line, b".")?;
        let board = self.board?;
        Some(
            Answer::done()
                .decimal(u64::from(board.outgoing))
                .decimal(u64::from(board.aps))
                .decimal_or(board.active.map(|i| i as u64), b"-")
                .decimal(u64::from(board.mark)),
        )
    }

    pub(crate) fn links(&self, line: &[u8]) -> Option<Answer> {
        numbers(line, b".")?;
        let board = self.board?;
        let mut a = Answer::done();
        for (i, link) in board.links.iter().enumerate() {
            if link.present {
                a = entry(a, i, link.partner, link.floor);
            }
        }
        Some(a)
    }

    // The used rows of a slot, 0 or 1, by their numbers in the list; address 0 is a free row. Document
    // 02 (iii): "the first half belongs to slot 0". Lists that network opening would refuse have no
    // halves to show.
    pub(crate) fn heard(&self, line: &[u8]) -> Option<Answer> {
        let [_, slot, ..] = numbers(line, b".B")?;
        let _board = self.board?;
        if slot > 1 {
            return None;
        }
        let rows = lent_of(self.lists.rows, &self.lists.addrs);
        let tops = lent_of(self.lists.tops, &self.lists.floors);
        let addrs = &self.lists.addrs[..rows];
        let floors = &self.lists.floors[..tops];
        if !board::lists_fit(addrs, floors) {
            return Some(refused(Refusal::Room));
        }
        let half = addrs.len() / 2;
        let rows = addrs.iter().zip(floors.iter()).enumerate();
        let mut a = Answer::done();
        for (r, (&sender, &floor)) in rows.skip(slot as usize * half).take(half) {
            if sender != 0 {
                a = entry(a, r, sender, floor);
            }
        }
        Some(a)
    }
}

fn entry(a: Answer, i: usize, address: u64, floor: u32) -> Answer {
    a.decimal(i as u64)
        .address(address)
        .decimal(u64::from(floor))
}
