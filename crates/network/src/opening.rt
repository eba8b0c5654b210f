// Opening, in document 01's order of judgement. How many rows a slot has, half of what the lists have, is
// taken where these were judged, and handed down. Lists and output go down as the host lends them: a struct of
// `&mut` would have each of them named anew in every clause.
ghost use Rattle.std.specs.Prelude.{◌≡◌, ◌≤◌, ◌<◌, length};
ghost use Rattle.settings.specs.Settings.{ours, longest, top};
ghost use Rattle.octets.specs.Keys.{the_key};
ghost use Rattle.answers.specs.Numbers.{told_opened};
ghost use Rattle.board.specs.Rows.{lists};
ghost use Rattle.board.specs.Requests.{slot_of};
ghost use Rattle.seals.specs.Sealing.{message_of};
ghost use Rattle.network.specs.Opening.{Lent, lent, leaving, row_of, admitted, opened_under, opened_keyed, open_network};
ghost use Rattle.network.specs.Code.{opened_heard};

use answers::{Opened, Refusal};
use board::{Board, Slot};
use frames::{Layer, Read};
use seals::Incoming;
use settings::{LONGEST, TOP};

// A frame for which there is a row: the tag is judged before the row is touched.
fn admit(
    key: [u8; 16],
    r: usize,
    x: Incoming,
    addrs: &mut [u64],
    floors: &mut [u32],
    out: &mut [u8],
) -> Result<Opened, Refusal>
    requires room { longest ≤ length out.old }
    requires below_top { x.secured.counter < top }
    requires r_in_bounds { (r < length addrs.old) × (r < length floors.old) }
    ensures { leaving (told_opened result) (lent addrs.new floors.new out.new) ≡ admitted x.entry.frame.now x.entry.secured (lent addrs.old floors.old out.old) (message_of ours (the_key key) x.entry.frame.now x.entry.secured) (Some r) }
{
    let plain = seals::unseal(key, Layer::Network, x.frame, x.secured, out);
    let length = plain.ok_or(Refusal::Forged)?;
    addrs[r] = x.secured.sender;
    floors[r] = x.secured.counter + 1;
    Ok(Opened {
        length,
        sender: x.secured.sender,
        protection: Some(1),
    })
}

// A frame for which there is no row: 9 comes before 10.
#[tactic(auto, unfolding(crate::specs::Opening::admitted, seals::specs::Sealing::looking, seals::specs::Sealing::genuine))]
fn turn_away(key: [u8; 16], x: Incoming) -> Result<Opened, Refusal>
    ensures { (w : Lent) → leaving (told_opened result) w ≡ admitted x.entry.frame.now x.entry.secured w (message_of ours (the_key key) x.entry.frame.now x.entry.secured) None }
{
    if seals::look(key, x.frame, x.secured) {
        return Err(Refusal::Full);
    }
    Err(Refusal::Forged)
}

// A sender that has row r.
#[tactic(auto, unfolding(crate::specs::Code::opened_heard))]
fn open_heard(
    key: [u8; 16],
    r: usize,
    x: Incoming,
    addrs: &mut [u64],
    floors: &mut [u32],
    out: &mut [u8],
) -> Result<Opened, Refusal>
    requires room { longest ≤ length out.old }
    requires below_top { x.secured.counter < top }
    requires r_in_bounds { (r < length addrs.old) × (r < length floors.old) }
    ensures { leaving (told_opened result) (lent addrs.new floors.new out.new) ≡ opened_heard ours (the_key key) r x.entry.frame.now x.entry.secured (lent addrs.old floors.old out.old) }
{
    if x.secured.counter < floors[r] {
        return Err(Refusal::Stale);
    }
    admit(key, r, x, addrs, floors, out)
}

// A sender that was not heard under slot i: its floor is 0, so no counter is stale.
fn open_new(
    rows: usize,
    key: [u8; 16],
    i: usize,
    x: Incoming,
    addrs: &mut [u64],
    floors: &mut [u32],
    out: &mut [u8],
) -> Result<Opened, Refusal>
    requires room { longest ≤ length out.old }
    requires below_top { x.secured.counter < top }
    requires slot { i < 2 }
    requires same_length { length addrs.old ≡ length floors.old }
    ensures { leaving (told_opened result) (lent addrs.new floors.new out.new) ≡ admitted x.entry.frame.now x.entry.secured (lent addrs.old floors.old out.old) (message_of ours (the_key key) x.entry.frame.now x.entry.secured) (row_of rows (lists addrs.old floors.old) i 0) }
{
    match board::find_row(addrs, i * rows, rows, 0) {
        Some(r) => admit(key, r, x, addrs, floors, out),
        None => turn_away(key, x),
    }
}

#[tactic(auto, unfolding(crate::specs::Opening::opened_under, crate::specs::Code::opened_heard, crate::specs::Opening::floor_of, crate::specs::Opening::row_for))]
fn open_under(
    rows: usize,
    key: [u8; 16],
    i: usize,
    x: Incoming,
    addrs: &mut [u64],
    floors: &mut [u32],
    out: &mut [u8],
) -> Result<Opened, Refusal>
    requires room { longest ≤ length out.old }
    requires slot { i < 2 }
    requires same_length { length addrs.old ≡ length floors.old }
    ensures { leaving (told_opened result) (lent addrs.new floors.new out.new) ≡ opened_under ours rows (the_key key) i x.entry.frame.now x.entry.secured (lent addrs.old floors.old out.old) }
{
    if x.secured.counter == TOP {
        return Err(Refusal::Top);
    }
    match board::find_row(addrs, i * rows, rows, x.secured.sender) {
        Some(r) => open_heard(key, r, x, addrs, floors, out),
        None => open_new(rows, key, i, x, addrs, floors, out),
    }
}

#[tactic(auto, unfolding(crate::specs::Opening::opened_keyed))]
fn open_keyed(
    rows: usize,
    slots: [Slot; 2],
    x: Incoming,
    addrs: &mut [u64],
    floors: &mut [u32],
    out: &mut [u8],
) -> Result<Opened, Refusal>
    requires room { longest ≤ length out.old }
    requires same_length { length addrs.old ≡ length floors.old }
    ensures { leaving (told_opened result) (lent addrs.new floors.new out.new) ≡ opened_keyed ours rows slots x.entry.frame.now x.entry.secured (lent addrs.old floors.old out.old) (slot_of slots x.entry.secured.sequence) }
{
    let i = board::slot_of(slots, x.secured.sequence).ok_or(Refusal::NoKey)?;
    open_under(rows, slots[i].key, i, x, addrs, floors, out)
}

// Opens a network frame: the plain frame stands at the start of out. A refusal leaves the lists and
// out as they stood, and no frame changes the board.
#[tactic(auto, unfolding(crate::specs::Opening::open_network, crate::specs::Opening::opened_read, board::specs::Rows::lists_fit))]
pub fn open_frame(
    board: Board,
    frame: &[u8],
    addrs: &mut [u64],
    floors: &mut [u32],
    out: &mut [u8],
) -> Result<Opened, Refusal>
    ensures { leaving (told_opened result) (lent addrs.new floors.new out.new) ≡ open_network ours board frame.now (lent addrs.old floors.old out.old) }
{
    if out.len() < LONGEST {
        return Err(Refusal::Room);
    }
    if !board::lists_fit(addrs, floors) {
        return Err(Refusal::Room);
    }
    let rows = addrs.len() / 2;
    if LONGEST < frame.len() {
        return Err(Refusal::Long);
    }
    match frames::read_frame(Layer::Network, frame, 0)? {
        Read::Plain(_) => {
            octets::paste_at(out, 0, frame);
            Ok(Opened::plain(frame.len()))
        }
        Read::Secured(secured) => {
            let x = Incoming { frame, secured };
            open_keyed(rows, board.slots, x, addrs, floors, out)
        }
    }
}
