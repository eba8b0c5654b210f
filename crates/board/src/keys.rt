// Network keys: installing and switching.
ghost use Rattle.std.specs.Prelude.{◌≡◌, ◌-◌, ◌<◌};
ghost use Rattle.answers.specs.Numbers.{told};
ghost use Rattle.octets.specs.Keys.{the_key};
ghost use Rattle.board.specs.Rows.{lists};
ghost use Rattle.board.specs.State.{slot_at, carries};
ghost use Rattle.board.specs.Requests.{left, changed, holds, slot_of};
ghost use Rattle.board.specs.Requests.{install, switch};

use crate::answered::{did, refuse};
use crate::rows::{free_rows, lists_fit};
use crate::state::{with_active, with_slot};
use crate::{After, Board, Slot};
use answers::Refusal;

#[tactic(auto, unfolding(crate::specs::State::carries))]
fn carries_number(s: &Slot, sequence: u8) -> bool
    ensures { result ≡ carries s.now sequence }
{
    s.present && s.seq == sequence
}

#[tactic(auto, unfolding(crate::specs::Requests::holds))]
fn holds_key(s: &Slot, sequence: u8, key: &[u8; 16]) -> bool
    ensures { result ≡ holds s.now sequence (the_key key.now) }
{
    carries_number(s, sequence) && octets::same(&s.key, key)
}

// Installs a network key. 1 where the lists don't fit; 14 for a slot above 1, or where the other
// slot has that sequence number. The key that is there already changes nothing; any other
// replaces the slot and frees its rows.
#[tactic(auto, unfolding(crate::specs::Requests::install))]
pub fn install(
    board: Board,
    addrs: &mut [u64],
    floors: &mut [u32],
    slot: usize,
    sequence: u8,
    key: [u8; 16],
) -> After<()>
    ensures { left (told result.answer) result.board (lists addrs.new floors.new) ≡ install board (lists addrs.old floors.old) slot sequence (the_key key) }
{
    if !lists_fit(addrs, floors) {
        return refuse(Refusal::Room, board);
    }
    let rows = addrs.len() / 2;
    if 1 < slot {
        return refuse(Refusal::Argument, board);
    }
    if carries_number(&board.slots[1 - slot], sequence) {
        return refuse(Refusal::Argument, board);
    }
    if holds_key(&board.slots[slot], sequence, &key) {
        return did(board);
    }
    free_rows(addrs, floors, slot * rows, rows);
    let s = Slot {
        present: true,
        seq: sequence,
        key,
    };
    did(with_slot(board, slot, s))
}

// The lowest present slot with that sequence number.
pub fn slot_of(slots: [Slot; 2], sequence: u8) -> Option<usize>
    ensures { result ≡ slot_of slots sequence }
{
    slots.iter().position(|s| carries_number(s, sequence))
}

// The present slot with that sequence number becomes active, else 13.
#[tactic(auto, unfolding(crate::specs::Requests::switch))]
pub fn switch(board: Board, sequence: u8) -> After<()>
    ensures { changed (told result.answer) result.board ≡ switch board sequence }
{
    match slot_of(board.slots, sequence) {
        Some(i) => did(with_active(board, i)),
        None => refuse(Refusal::Absent, board),
    }
}
