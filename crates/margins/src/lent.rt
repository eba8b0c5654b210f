// What every line is lent, made anew for it.
use board::{Board, Link, Slot};
use lines::{Lists, Octets, lent_of};
use std::array;

// The octets of a field of kind F of docs/MARGINS.md, of the 512 that there is room for; its letter in a form is G.
pub(crate) type Field = Octets<512>;

// An output of octets EE, of which a line is lent the first: all of them are shown, whatever was written.
#[derive(Drop)]
pub struct Output {
    octets: [u8; 256],
    room: usize,
}

impl Output {
    // S of docs/MARGINS.md goes only up to the 256 that there are.
    pub(crate) fn new(room: u64) -> Option<Output> {
        if room > 256 {
            return None;
        }
        Some(Output {
            octets: [0xee; 256],
            room: room as usize,
        })
    }

    pub(crate) fn lent(&mut self) -> &mut [u8] {
        let room = lent_of(self.room, &self.octets);
        &mut self.octets[..room]
    }

    pub(crate) fn as_slice(&self) -> &[u8] {
        text::front(&self.octets, self.room)
    }
}

// Lists in which row 0 is used, and all rows of slot 1 are, which start at half; so are those behind them.
pub(crate) fn made_lists(rows: usize, tops: usize) -> Lists<1026> {
    let half = rows / 2;
    let mut lists = Lists {
        addrs: array::from_fn(|r| if r < half { 0 } else { 0xc00 + r as u64 }),
        floors: array::from_fn(|r| if r < half { 0 } else { 1 }),
        rows,
        tops,
    };
    lists.addrs[0] = 0xb1;
    lists.floors[0] = 100;
    lists
}

// One frame can be sealed, and no more.
pub(crate) fn made_board() -> Board {
    board_at(7, 8)
}

// The fields are set directly: requests would take 255 commands to bring the APS counter to where
// it wraps, and none brings the outgoing counter above the mark.
pub(crate) fn board_at(outgoing: u32, mark: u32) -> Board {
    let fresh = board::make(2, 0).board;
    let mut links = fresh.links;
    links[0] = link(0xa1, key_from(0x20), 100);
    links[1] = link(0xa2, key_from(0x30), 0);
    Board {
        outgoing,
        mark,
        aps: 255,
        slots: [slot(5, key_from(0x00)), slot(6, key_from(0x10))],
        active: Some(0),
        links,
        ..fresh
    }
}

fn slot(seq: u8, key: [u8; 16]) -> Slot {
    Slot {
        present: true,
        seq,
        key,
    }
}

fn link(partner: u64, key: [u8; 16], floor: u32) -> Link {
    Link {
        present: true,
        partner,
        key,
        floor,
    }
}

// Sixteen octets that count up from the first. Each first has four low bits of zero.
pub(crate) fn key_from(first: u8) -> [u8; 16] {
    array::from_fn(|i| first | i as u8)
}
