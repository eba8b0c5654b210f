// Link keys: adding and removing.
ghost use Rattle.std.specs.Prelude.{◌≡◌, ◌<◌};
ghost use Rattle.answers.specs.Numbers.{told, done};
ghost use Rattle.octets.specs.Lists.{eq_list};
ghost use Rattle.octets.specs.Keys.{the_key};
ghost use Rattle.board.specs.State.{pairs, with_link};
ghost use Rattle.board.specs.Requests.{changed, link_of, free_link, added, add_new, add_to, add_link, remove_link};

use crate::answered::{did, refuse};
use crate::state::{no_link, with_link};
use crate::{After, Board, Link};
use answers::Refusal;

#[tactic(auto, unfolding(crate::specs::State::pairs))]
fn pairs_with(l: &Link, partner: u64) -> bool
    ensures { result ≡ pairs l.now partner }
{
    l.present && l.partner == partner
}

// The lowest present entry for that partner.
pub fn link_of(links: [Link; 8], partner: u64) -> Option<usize>
    ensures { result ≡ link_of links partner }
{
    links.iter().position(|l| pairs_with(l, partner))
}

fn free_link(links: [Link; 8]) -> Option<usize>
    ensures { result ≡ free_link links }
{
    links.iter().position(|l| !l.present)
}

// A partner's new key, floor 0.
fn added(partner: u64, key: [u8; 16]) -> Link
    ensures { result ≡ added partner (the_key key) }
{
    Link {
        present: true,
        partner,
        key,
        floor: 0,
    }
}

// Adds a link key: the same again changes nothing, another replaces it with floor 0, a new partner
// takes the lowest free entry (none: 10). A partner zero or all ones is 14.
#[tactic(auto, unfolding(crate::specs::Requests::add_link))]
pub fn add_link(board: Board, partner: u64, key: [u8; 16]) -> After<()>
    ensures { changed (told result.answer) result.board ≡ add_link board partner (the_key key) }
{
    if octets::no_address(partner) {
        return refuse(Refusal::Argument, board);
    }
    match link_of(board.links, partner) {
        Some(i) if octets::same(&board.links[i].key, &key) => did(board),
        Some(i) => did(with_link(board, i, added(partner, key))),
        None => match free_link(board.links) {
            Some(i) => did(with_link(board, i, added(partner, key))),
            None => refuse(Refusal::Full, board),
        },
    }
}

// Removes a partner's link key: its entry is zeroed; 13 where there is none.
#[tactic(auto, unfolding(crate::specs::Requests::remove_link))]
pub fn remove_link(board: Board, partner: u64) -> After<()>
    ensures { changed (told result.answer) result.board ≡ remove_link board partner }
{
    if partner == 0 {
        return refuse(Refusal::Absent, board);
    }
    match link_of(board.links, partner) {
        Some(i) => did(with_link(board, i, no_link())),
        None => refuse(Refusal::Absent, board),
    }
}
