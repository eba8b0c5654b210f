// Sealing, in document 01's order of judgement. The stages have what they read of the board, not the
// board: each that had it would hold a copy while the cipher works. The network layer has stages of its own: it finds
// its key elsewhere, and judges other limits.
ghost use Rattle.std.specs.Prelude.{◌≡◌, true, ◌≤◌, length};
ghost use Rattle.settings.specs.Settings.{ours, longest, longest_aps_plain};
ghost use Rattle.octets.specs.Keys.{the_key};
ghost use Rattle.answers.specs.Numbers.{told_sealed};
ghost use Rattle.board.specs.Requests.{link_of};
ghost use Rattle.board.specs.Sending.{framed, sending_of};
ghost use Rattle.board.specs.Code.{sent};
ghost use Rattle.aps.specs.Sealing.{named, sealed_under, sealed_for, seal_aps};

use crate::keys::key_for;
use answers::Refusal;
use board::{After, Board, Link, Sending};
use frames::{Auxiliary, Layer};
use seals::Outgoing;
use settings::{LONGEST, LONGEST_APS_PLAIN};

// Whether an identifier names a key of a link entry.
#[tactic(auto, unfolding(crate::specs::Sealing::named))]
fn is_named(identifier: u8) -> bool
    ensures { result ≡ named identifier }
{
    matches!(identifier, 0 | 2 | 3)
}

fn seal_under(
    sending: Sending,
    key: [u8; 16],
    k: u8,
    x: Outgoing,
    out: &mut [u8],
) -> Result<usize, Refusal>
    requires { (length x.frame.now ≤ longest_aps_plain ours) × ((longest ≤ length out.old) × (named k ≡ true)) }
    ensures { (b : Board) → sending_of b ≡ sending → sent b result out.new ≡ sealed_under ours b x.entry.frame.now out.old x.entry.header k (the_key key) }
{
    board::may_send(sending)?;
    let named = key_for(key, k);
    let aux = Auxiliary {
        identifier: k,
        counter: sending.counter,
        sender: sending.own,
        sequence: 0,
    };
    seals::seal(named, Layer::Aps, aux, x.frame, x.header, out).ok_or(Refusal::Room)
}

#[tactic(auto, unfolding(crate::specs::Sealing::sealed_for))]
fn seal_for(
    links: [Link; 8],
    sending: Sending,
    a: u64,
    k: u8,
    x: Outgoing,
    out: &mut [u8],
) -> Result<usize, Refusal>
    requires { (length x.frame.now ≤ longest_aps_plain ours) × ((longest ≤ length out.old) × (named k ≡ true)) }
    ensures { (b : Board) → b.links ≡ links → sending_of b ≡ sending → sent b result out.new ≡ sealed_for ours b x.entry.frame.now out.old x.entry.header k (link_of b.links a) }
{
    let i = board::link_of(links, a).ok_or(Refusal::NoKey)?;
    seal_under(sending, links[i].key, k, x, out)
}

#[tactic(auto, unfolding(crate::specs::Sealing::seal_aps, crate::specs::Sealing::sealed_read))]
fn seal_read(
    links: [Link; 8],
    sending: Sending,
    f: &[u8],
    a: u64,
    k: u8,
    out: &mut [u8],
) -> Result<usize, Refusal>
    ensures { (b : Board) → b.links ≡ links → sending_of b ≡ sending → sent b result out.new ≡ seal_aps ours b f.now a k out.old }
{
    if out.len() < LONGEST {
        return Err(Refusal::Room);
    }
    if LONGEST_APS_PLAIN < f.len() {
        return Err(Refusal::Long);
    }
    let h = frames::read_plain(Layer::Aps, f)?;
    if !is_named(k) {
        return Err(Refusal::Argument);
    }
    let x = Outgoing {
        frame: f,
        header: h,
    };
    seal_for(links, sending, a, k, x, out)
}

// Seals a plain APS frame for a partner under key identifier 0, 2 or 3: the secured frame stands at
// the start of out, and the outgoing counter is spent. A refusal leaves the board and out as they
// stood.
pub fn seal_frame(
    board: Board,
    frame: &[u8],
    partner: u64,
    identifier: u8,
    out: &mut [u8],
) -> After<usize>
    ensures { framed (told_sealed result.answer) result.board out.new ≡ seal_aps ours board frame.now partner identifier out.old }
{
    // Made before the stages run: made behind them, it would be a second copy on the stack.
    let mut next = board;
    let sending = board::sending_of(board);
    let answer = seal_read(board.links, sending, frame, partner, identifier, out);
    next.outgoing = board::counter_after(answer, board.outgoing);
    After {
        answer,
        board: next,
    }
}
