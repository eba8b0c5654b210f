// What may stand inside a Tunnel.
ghost use Rattle.std.specs.Prelude.{◌≡◌};
ghost use Rattle.frames.specs.Tunnelling.{inner_control, inner_security, may_tunnel};

use crate::{aps_header, security};

// A control of a secured command that asks for no acknowledgement.
#[tactic(auto, unfolding(crate::specs::Tunnelling::inner_control, crate::specs::Aps::aps_type, crate::specs::Aps::ack_request))]
fn is_inner_control(c: u8) -> bool
    ensures { result ≡ inner_control c }
{
    if !aps_header::form(c) {
        return false;
    }
    if c % 4 != 1 {
        return false;
    }
    if !aps_header::is_secured(c) {
        return false;
    }
    c / 64 % 2 == 0
}

// A security control that names identifier 0, 2 or 3, with extended nonce.
#[tactic(auto, unfolding(crate::specs::Tunnelling::inner_security))]
fn is_inner_security(c: u8) -> bool
    ensures { result ≡ inner_security c }
{
    if !aps_header::is_keyed(security::identifier(c)) {
        return false;
    }
    security::extended(c) == 1
}

// Whether a frame may stand inside a Tunnel, as far as a router can tell, which has no key for it.
#[tactic(auto, unfolding(crate::specs::Tunnelling::may_tunnel))]
pub fn may_tunnel(frame: &[u8]) -> bool
    ensures { result ≡ may_tunnel frame.now }
{
    if !is_inner_control(octets::octet(frame, 0)) {
        return false;
    }
    is_inner_security(octets::octet(frame, 2))
}
