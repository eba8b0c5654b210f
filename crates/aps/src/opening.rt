// Opening, in document 01's order of judgement.
ghost use Rattle.std.specs.Prelude.{◌≡◌, ◌≤◌, ◌<◌, length};
ghost use Rattle.settings.specs.Settings.{ours, longest, top};
ghost use Rattle.answers.specs.Numbers.{told_opened};
ghost use Rattle.board.specs.State.{link_at};
ghost use Rattle.board.specs.Requests.{link_of};
ghost use Rattle.board.specs.Sending.{framed};
ghost use Rattle.seals.specs.Sealing.{message_of};
ghost use Rattle.aps.specs.Opening.{key_named, admitted, opened_under, opened_keyed, open_aps};
ghost use Rattle.aps.specs.Code.{heard, RaisesEntry};

use crate::keys::{identifier, key_named};
use answers::{Opened, Refusal};
use board::{After, Board, Link};
use frames::{Layer, Read};
use seals::Incoming;
use settings::{LONGEST, LONGEST_APS, TOP};

// What a stage tells of a frame that opened, and the floor that it raises; an unsecured frame raises
// none. The stages have what they read of the board, not the board: each that had it would hold a copy
// while the cipher works.
#[derive(Clone, Copy)]
struct Heard {
    opened: Opened,
    raised: Option<Raised>,
}

// An entry, and the floor that it then has.
#[derive(Clone, Copy)]
struct Raised {
    entry: usize,
    floor: u32,
}

// The tag is judged before the floor is touched.
fn admit(l: Link, i: usize, x: Incoming, out: &mut [u8]) -> Result<Heard, Refusal>
    requires room { longest ≤ length out.old }
    requires below_top { x.secured.counter < top }
    requires entry { i < 8 }
    ensures out_after { (b : Board) → link_at b.links i ≡ l → heard b result out.new ≡ admitted b x.entry.frame.now x.entry.secured out.old i (message_of ours (key_named l x.entry.secured) x.entry.frame.now x.entry.secured) }
    ensures in_bounds { RaisesEntry result }
{
    let key = key_named(l, x.secured);
    let length = seals::unseal(key, Layer::Aps, x.frame, x.secured, out).ok_or(Refusal::Forged)?;
    Ok(Heard {
        opened: Opened {
            length,
            sender: x.secured.sender,
            protection: Some(identifier(x.secured)),
        },
        raised: Some(Raised {
            entry: i,
            floor: x.secured.counter + 1,
        }),
    })
}

#[tactic(auto, unfolding(crate::specs::Opening::opened_under))]
fn open_under(l: Link, i: usize, x: Incoming, out: &mut [u8]) -> Result<Heard, Refusal>
    requires room { longest ≤ length out.old }
    requires entry { i < 8 }
    ensures out_after { (b : Board) → link_at b.links i ≡ l → heard b result out.new ≡ opened_under ours b x.entry.frame.now x.entry.secured out.old i }
    ensures in_bounds { RaisesEntry result }
{
    if x.secured.counter == TOP {
        return Err(Refusal::Top);
    }
    if x.secured.counter < l.floor {
        return Err(Refusal::Stale);
    }
    admit(l, i, x, out)
}

#[tactic(auto, unfolding(crate::specs::Opening::opened_keyed))]
fn open_keyed(links: [Link; 8], x: Incoming, out: &mut [u8]) -> Result<Heard, Refusal>
    requires { longest ≤ length out.old }
    ensures out_after { (b : Board) → b.links ≡ links → heard b result out.new ≡ opened_keyed ours b x.entry.frame.now x.entry.secured out.old (link_of b.links x.entry.secured.sender) }
    ensures in_bounds { RaisesEntry result }
{
    let i = board::link_of(links, x.secured.sender).ok_or(Refusal::NoKey)?;
    open_under(links[i], i, x, out)
}

#[tactic(auto, unfolding(crate::specs::Opening::open_aps, crate::specs::Opening::opened_read))]
fn open_read(links: [Link; 8], f: &[u8], given: u64, out: &mut [u8]) -> Result<Heard, Refusal>
    ensures out_after { (b : Board) → b.links ≡ links → heard b result out.new ≡ open_aps ours b f.now given out.old }
    ensures in_bounds { RaisesEntry result }
{
    if out.len() < LONGEST {
        return Err(Refusal::Room);
    }
    if LONGEST_APS < f.len() {
        return Err(Refusal::Long);
    }
    match frames::read_frame(Layer::Aps, f, given)? {
        Read::Plain(_) => {
            octets::paste_at(out, 0, f);
            Ok(Heard {
                opened: Opened::plain(f.len()),
                raised: None,
            })
        }
        Read::Secured(secured) => open_keyed(links, Incoming { frame: f, secured }, out),
    }
}

// Opens an APS frame; given is its sender where it carries none. The plain frame stands at the start
// of out. A refusal leaves the board and out as they stood.
pub fn open_frame(board: Board, frame: &[u8], given: u64, out: &mut [u8]) -> After<Opened>
    ensures { framed (told_opened result.answer) result.board out.new ≡ open_aps ours board frame.now given out.old }
{
    // Made before the stages run: made behind them, it would be a second copy on the stack.
    let mut next = board;
    match open_read(board.links, frame, given, out) {
        Err(why) => After {
            answer: Err(why),
            board: next,
        },
        Ok(heard) => {
            if let Some(raised) = heard.raised {
                next.links[raised.entry].floor = raised.floor;
            }
            After {
                answer: Ok(heard.opened),
                board: next,
            }
        }
    }
}
