// What stays from line to line.
use answers::Refusal;
use board::{After, Board};
use lines::{Answer, Lists, Octets, lent_of, refused};

// The octets of a field of kind F: 256 of them at most.
pub(crate) type Field = Octets<256>;

// The board, if one was made, its stored lists, and how many octets of output are lent.
#[derive(Drop)]
pub struct Bench {
    pub board: Option<Board>,
    pub lists: Lists<1024>,
    pub room: usize,
}

impl Bench {
    pub(crate) fn new() -> Bench {
        Bench {
            board: None,
            lists: Lists::new(64, 64),
            room: 116,
        }
    }

    // The board that a request leaves is taken as it is, refused or not: the library says what it is.
    pub(crate) fn left<T>(&mut self, after: After<T>) -> Result<T, Refusal> {
        let After { answer, board } = after;
        self.board = Some(board);
        answer
    }
}

// The rows of the two lists that are lent, and no more than there are. Each program that lends stored lists has this
// for itself: `Lists::lent` of the library leaves open what stands behind the rows, and the programs don't rest on it.
pub(crate) fn lent(lists: &mut Lists<1024>) -> (&mut [u64], &mut [u32]) {
    let rows = lists.rows;
    let tops = lists.tops;
    (
        front_of(&mut lists.addrs, rows),
        front_of(&mut lists.floors, tops),
    )
}

fn front_of<T>(list: &mut [T; 1024], n: usize) -> &mut [T] {
    let lent = lent_of(n, list);
    &mut list[..lent]
}

// The octets that were made, at the start of the output.
pub(crate) fn laid(made: Result<usize, Refusal>, out: &[u8]) -> Answer {
    match made {
        Ok(n) => Answer::done().hex(text::front(out, n)),
        Err(why) => refused(why),
    }
}
