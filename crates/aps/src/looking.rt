// Looking: the tag alone. The same at the network layer has another limit, table and key, and so a function of its own.
ghost use Rattle.std.specs.Prelude.{◌≡◌};
ghost use Rattle.settings.specs.Settings.{ours};
ghost use Rattle.board.specs.Requests.{link_of};
ghost use Rattle.aps.specs.Opening.{looked_keyed, look_aps};

use crate::keys::key_named;
use board::{Board, Link};
use frames::{Layer, Read, Secured};
use settings::LONGEST_APS;

// Whether the tag of a secured frame fits the key that is found for it, whatever its counter. It
// changes nothing, and a frame that is too long, is not secured or finds no key fits none.
#[tactic(auto, unfolding(crate::specs::Opening::look_aps, crate::specs::Opening::looked_read))]
pub fn look_frame(board: Board, frame: &[u8], given: u64) -> bool
    ensures { result ≡ look_aps ours board frame.now given }
{
    if LONGEST_APS < frame.len() {
        return false;
    }
    let Ok(read) = frames::read_frame(Layer::Aps, frame, given) else {
        return false;
    };
    match read {
        Read::Plain(_) => false,
        Read::Secured(s) => look_keyed(board.links, frame, s),
    }
}

#[tactic(auto, unfolding(crate::specs::Opening::looked_keyed))]
fn look_keyed(links: [Link; 8], f: &[u8], s: Secured) -> bool
    ensures { result ≡ looked_keyed ours links f.now s (link_of links s.sender) }
{
    match board::link_of(links, s.sender) {
        Some(i) => seals::look(key_named(links[i], s), f, s),
        None => false,
    }
}
