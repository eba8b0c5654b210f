// What stays from line to line.
use board::{After, Board};
use lines::{Answer, Lists, Octets, lent_of, told};

// The octets of a field of kind F: 256 of them at most.
pub(crate) type Field = Octets<256>;

// The board, if one was made, and the stored lists.
#[derive(Drop)]
pub struct Trials {
    pub board: Option<Board>,
    pub lists: Lists<1026>,
}

impl Trials {
    pub(crate) fn new() -> Trials {
        Trials {
            board: None,
            lists: Lists::new(64, 64),
        }
    }

    // The board that a request leaves is taken as it is, refused or not: the library says what it is.
    pub(crate) fn after(&mut self, after: After<()>) -> Answer {
        self.board = Some(after.board);
        told(after.answer)
    }
}

// The rows of the two lists that are lent, and no more than there are. Each program that lends stored lists has this
// for itself: `Lists::lent` of the library leaves open what stands behind the rows, and the programs don't rest on it.
pub(crate) fn lent(lists: &mut Lists<1026>) -> (&mut [u64], &mut [u32]) {
    let rows = lists.rows;
    let tops = lists.tops;
    (
        front_of(&mut lists.addrs, rows),
        front_of(&mut lists.floors, tops),
    )
}

fn front_of<T>(list: &mut [T; 1026], n: usize) -> &mut [T] {
    let lent = lent_of(n, list);
    &mut list[..lent]
}
