// A board made, and one part of it changed.
ghost use Rattle.std.specs.Prelude.{◌≡◌, ◌<◌};
ghost use Rattle.answers.specs.Numbers.{told};
ghost use Rattle.board.specs.State.{no_slot, no_link, fresh, with_slot, with_active, with_link};
ghost use Rattle.board.specs.Requests.{changed};
ghost use Rattle.board.specs.Requests.{make};

use crate::answered::{did, refuse};
use crate::{After, Board, Link, Slot};
use answers::Refusal;

// An empty slot and an empty entry, by the names of their definitions (specs/State).
fn no_slot() -> Slot
    ensures { result ≡ no_slot }
{
    Slot::default()
}

pub(crate) fn no_link() -> Link
    ensures { result ≡ no_link }
{
    Link::default()
}

fn fresh_board(own: u64, found: u32) -> Board
    ensures { result ≡ fresh own found }
{
    Board {
        own,
        outgoing: found,
        mark: found,
        aps: 0,
        slots: [no_slot(); 2],
        active: None,
        links: [no_link(); 8],
    }
}

// A fresh board with that address, which starts at the mark that it finds in the host's store, 0 on a
// new one. An address of zero or all ones is 14, with a board without address.
#[tactic(auto, unfolding(crate::specs::Requests::make))]
pub fn make(own: u64, found: u32) -> After<()>
    ensures { changed (told result.answer) result.board ≡ make own found }
{
    if octets::no_address(own) {
        return refuse(Refusal::Argument, fresh_board(0, 0));
    }
    did(fresh_board(own, found))
}

// The changes that the definitions of requests name (specs/State).
pub(crate) fn with_slot(board: Board, i: usize, s: Slot) -> Board
    requires { i < 2 }
    ensures { result ≡ with_slot board i s }
{
    let mut next = board;
    next.slots[i] = s;
    next
}

pub(crate) fn with_active(board: Board, i: usize) -> Board
    ensures { result ≡ with_active board i }
{
    Board {
        active: Some(i),
        ..board
    }
}

pub(crate) fn with_link(board: Board, i: usize, l: Link) -> Board
    requires { i < 8 }
    ensures { result ≡ with_link board i l }
{
    let mut next = board;
    next.links[i] = l;
    next
}
