// Looking: the tag alone. The same at the APS layer has another limit, table and key, and so a function of its own.
ghost use Rattle.std.specs.Prelude.{◌≡◌};
ghost use Rattle.settings.specs.Settings.{ours};
ghost use Rattle.board.specs.Requests.{slot_of};
ghost use Rattle.network.specs.Opening.{looked_keyed, look_network};

use board::{Board, Slot};
use frames::{Layer, Read, Secured};
use settings::LONGEST;

// Whether the tag of a secured frame fits the key that is found for it, whatever its counter. It
// changes nothing, and a frame that is too long, is not secured or finds no key fits none.
#[tactic(auto, unfolding(crate::specs::Opening::look_network, crate::specs::Opening::looked_read))]
pub fn look_frame(board: Board, frame: &[u8]) -> bool
    ensures { result ≡ look_network ours board frame.now }
{
    if LONGEST < frame.len() {
        return false;
    }
    let Ok(read) = frames::read_frame(Layer::Network, frame, 0) else {
        return false;
    };
    match read {
        Read::Plain(_) => false,
        Read::Secured(s) => look_keyed(board.slots, frame, s),
    }
}

#[tactic(auto, unfolding(crate::specs::Opening::looked_keyed))]
fn look_keyed(slots: [Slot; 2], f: &[u8], s: Secured) -> bool
    ensures { result ≡ looked_keyed ours slots f.now s (slot_of slots s.sequence) }
{
    match board::slot_of(slots, s.sequence) {
        Some(i) => seals::look(slots[i].key, f, s),
        None => false,
    }
}
