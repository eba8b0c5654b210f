// Sealing, in document 01's order of judgement. The stages have what they read of the board, not the
// board: each that had it would hold a copy while the cipher works. The APS layer has stages of its own: it finds
// its key elsewhere, and judges other limits.
ghost use Rattle.std.specs.Prelude.{◌≡◌, ◌≤◌, length};
ghost use Rattle.settings.specs.Settings.{ours, longest, longest_plain};
ghost use Rattle.answers.specs.Numbers.{told_sealed};
ghost use Rattle.board.specs.Sending.{framed, sending_of};
ghost use Rattle.board.specs.Code.{sent};
ghost use Rattle.network.specs.Sealing.{sealed_under, sealed_by, seal_network};

use answers::Refusal;
use board::{After, Board, Sending, Slot};
use frames::{Auxiliary, Layer};
use seals::Outgoing;
use settings::{LONGEST, LONGEST_PLAIN};

fn seal_under(sending: Sending, s: Slot, x: Outgoing, out: &mut [u8]) -> Result<usize, Refusal>
    requires { (length x.frame.now ≤ longest_plain ours) × (longest ≤ length out.old) }
    ensures { (b : Board) → sending_of b ≡ sending → sent b result out.new ≡ sealed_under ours b x.entry.frame.now out.old x.entry.header s }
{
    board::may_send(sending)?;
    let aux = Auxiliary {
        identifier: 1,
        counter: sending.counter,
        sender: sending.own,
        sequence: s.seq,
    };
    seals::seal(s.key, Layer::Network, aux, x.frame, x.header, out).ok_or(Refusal::Room)
}

#[tactic(auto, unfolding(crate::specs::Sealing::sealed_by))]
fn seal_active(
    slots: [Slot; 2],
    i: usize,
    sending: Sending,
    x: Outgoing,
    out: &mut [u8],
) -> Result<usize, Refusal>
    requires { (length x.frame.now ≤ longest_plain ours) × (longest ≤ length out.old) }
    ensures { (b : Board) → b.slots ≡ slots → sending_of b ≡ sending → sent b result out.new ≡ sealed_by ours b x.entry.frame.now out.old x.entry.header (Some i) }
{
    if 1 < i {
        return Err(Refusal::NoKey);
    }
    let s = slots[i];
    if !s.present {
        return Err(Refusal::NoKey);
    }
    seal_under(sending, s, x, out)
}

#[tactic(auto, unfolding(crate::specs::Sealing::sealed_by))]
fn seal_by(
    slots: [Slot; 2],
    active: Option<usize>,
    sending: Sending,
    x: Outgoing,
    out: &mut [u8],
) -> Result<usize, Refusal>
    requires { (length x.frame.now ≤ longest_plain ours) × (longest ≤ length out.old) }
    ensures { (b : Board) → b.slots ≡ slots → sending_of b ≡ sending → sent b result out.new ≡ sealed_by ours b x.entry.frame.now out.old x.entry.header active }
{
    match active {
        None => Err(Refusal::NoKey),
        Some(i) => seal_active(slots, i, sending, x, out),
    }
}

#[tactic(auto, unfolding(crate::specs::Sealing::seal_network, crate::specs::Sealing::sealed_read))]
fn seal_read(
    slots: [Slot; 2],
    active: Option<usize>,
    sending: Sending,
    f: &[u8],
    out: &mut [u8],
) -> Result<usize, Refusal>
    ensures { (b : Board) → b.slots ≡ slots → b.active ≡ active → sending_of b ≡ sending → sent b result out.new ≡ seal_network ours b f.now out.old }
{
    if out.len() < LONGEST {
        return Err(Refusal::Room);
    }
    if LONGEST_PLAIN < f.len() {
        return Err(Refusal::Long);
    }
    let h = frames::read_plain(Layer::Network, f)?;
    let x = Outgoing {
        frame: f,
        header: h,
    };
    seal_by(slots, active, sending, x, out)
}

// Seals a plain network frame under the active key: the secured frame stands at the start of out,
// and the outgoing counter is spent. A refusal leaves the board and out as they stood.
pub fn seal_frame(board: Board, frame: &[u8], out: &mut [u8]) -> After<usize>
    ensures { framed (told_sealed result.answer) result.board out.new ≡ seal_network ours board frame.now out.old }
{
    let slots = board.slots;
    let active = board.active;
    let sending = board::sending_of(board);
    let answer = seal_read(slots, active, sending, frame, out);
    let mut next = board;
    next.outgoing = board::counter_after(answer, board.outgoing);
    After {
        answer,
        board: next,
    }
}
