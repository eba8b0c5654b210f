// A Tunnel's destination, and the inner frame and its four portions, each handed on as that part of
// the caller's own frame.
ghost use Rattle.std.specs.Prelude.{◌≡◌, ◌+◌, ◌≤◌};
ghost use Rattle.octets.specs.Parts.{seen};
ghost use Rattle.settings.specs.Settings.{ours};
ghost use Rattle.answers.specs.Numbers.{protection_of};
ghost use Rattle.commands.specs.Numbers.{told_command};
ghost use Rattle.commands.specs.Parts.{cut_at};
ghost use Rattle.commands.specs.Table.{least_inner};
ghost use Rattle.router.specs.Routing.{told_routed, tunnel_to, route, start_of, size_of, portion_span};

use crate::Portion;
use answers::Refusal;
use commands::Command;
use std::ops::Range;

// The octets of the inner header: an inner frame is a command.
const HEADER: usize = 2;

// Another command than Tunnel goes nowhere.
#[tactic(auto, unfolding(crate::specs::Routing::tunnel_to))]
fn tunnel_to(c: Command) -> Result<u64, Refusal>
    ensures { told_routed result ≡ tunnel_to (told_command c) }
{
    match c {
        Command::Tunnel(a) => Ok(a),
        _ => Err(Refusal::Command),
    }
}

// Where the frame inside a plain APS frame that came under that protection goes: the destination of
// a Tunnel, else why it goes nowhere. It is lent nothing that it could change.
#[tactic(auto, unfolding(crate::specs::Routing::route, crate::specs::Routing::route_of))]
pub fn route(frame: &[u8], protection: Option<u8>) -> Result<u64, Refusal>
    ensures { told_routed result ≡ route ours frame.now (protection_of protection) }
{
    let command = commands::read_command(frame, protection)?;
    tunnel_to(command)
}

// Where a portion stands in an inner frame of n octets.
fn place_of(portion: Portion, n: usize) -> Range<usize>
    requires { least_inner ours ≤ n }
    ensures start { result.start ≡ start_of ours portion n }
    ensures end { result.end ≡ start_of ours portion n + size_of ours portion n }
    ensures within { result.end ≤ n }
{
    match portion {
        Portion::Whole => 0..n,
        Portion::Header => 0..HEADER,
        Portion::Auxiliary => HEADER..HEADER + settings::APS_AUX,
        Portion::Payload => HEADER + settings::APS_AUX..n - settings::TAG,
        Portion::Tag => n - settings::TAG..n,
    }
}

// The inner frame of that frame, or a portion of it; empty if the router refuses the frame. Joined,
// header, auxiliary header, payload and tag are the inner frame (`four-joined`, `calls-joined`).
pub fn portion_of(frame: &[u8], protection: Option<u8>, portion: Portion) -> &[u8]
    ensures { seen result ≡ cut_at frame.entry (portion_span ours portion frame.now (protection_of protection)) }
{
    let inner = commands::inner_of(frame, protection);
    if inner.is_empty() {
        return inner;
    }
    &inner[place_of(portion, inner.len())]
}
