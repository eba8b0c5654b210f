// The board: its state by value, the two lent lists of heard senders, and the requests that change
// keys.
#![tactic(auto)]

mod answered;
mod keys;
mod mark;
mod outgoing;
mod partners;
mod rows;
mod state;

use answers::Refusal;
pub use keys::{install, slot_of, switch};
pub use mark::{move_mark, next_mark};
pub use outgoing::{counter_after, may_send, sending_of};
pub use partners::{add_link, link_of, remove_link};
pub use rows::{find_row, forget, lists_fit};
pub use state::make;

// A network key and its sequence number. An absent one keeps its fields, which the host may set and
// is shown: so `present` stands beside them, and no Option around them.
#[derive(Clone, Copy, Default)]
pub struct Slot {
    pub present: bool,
    pub seq: u8,
    pub key: [u8; 16],
}

// A partner's link key, present as a slot is; floor is the least counter still accepted under it.
#[derive(Clone, Copy, Default)]
pub struct Link {
    pub present: bool,
    pub partner: u64,
    pub key: [u8; 16],
    pub floor: u32,
}

// The state. The mark is above every counter that was sent: the host's store holds it, or the next.
#[derive(Clone, Copy)]
pub struct Board {
    pub own: u64,
    pub outgoing: u32,
    pub mark: u32,
    pub aps: u8,
    pub slots: [Slot; 2],
    pub active: Option<usize>,
    pub links: [Link; 8],
}

// A request's answer, and the board that it leaves.
#[derive(Clone, Copy)]
pub struct After<T> {
    pub answer: Result<T, Refusal>,
    pub board: Board,
}

// What sealing needs of the board: its address, the counter that goes out, and the mark.
#[derive(Clone, Copy)]
pub struct Sending {
    pub own: u64,
    pub counter: u32,
    pub mark: u32,
}
