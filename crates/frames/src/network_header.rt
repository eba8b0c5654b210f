// The network header.
ghost use Rattle.std.specs.Prelude.{◌≡◌, ◌≤◌};
ghost use Rattle.frames.specs.declared.Layer.TheVariants.{Network};
ghost use Rattle.frames.specs.Reading.{read_header};
ghost use Rattle.frames.specs.Code.{told_heading};
ghost use Rattle.frames.specs.Network.{network_form, network_secured, network_base, network_header, network_keyed};

use crate::Heading;
use answers::Refusal;

#[tactic(auto, unfolding(crate::specs::Network::network_form))]
fn form(c: u16) -> bool
    ensures { result ≡ network_form c }
{
    if 1 < c % 4 {
        return false;
    }
    if c / 4 % 16 != 2 {
        return false;
    }
    if 1 < c / 64 % 4 {
        return false;
    }
    if c / 256 % 2 != 0 {
        return false;
    }
    c < 16384
}

#[tactic(auto, unfolding(crate::specs::Network::network_secured))]
fn is_secured(c: u16) -> bool
    ensures { result ≡ network_secured c }
{
    c / 512 % 2 == 1
}

// Where a source route starts.
#[tactic(auto, unfolding(crate::specs::Network::network_base))]
fn base(c: u16) -> usize
    ensures { (result ≡ network_base c) × (result ≤ 24) }
{
    let destination = usize::from(c / 2048 % 2);
    let source = usize::from(c / 4096 % 2);
    8 + 8 * destination + 8 * source
}

#[tactic(auto, unfolding(crate::specs::Network::network_header))]
fn header_length(f: &[u8], c: u16) -> usize
    ensures { result ≡ network_header f.now c }
{
    let b = base(c);
    if c / 1024 % 2 == 1 {
        let n = usize::from(octets::octet(f, b));
        return b + 2 + 2 * n;
    }
    b
}

#[tactic(auto, unfolding(crate::specs::Reading::read_header, crate::specs::Network::network_control))]
pub(crate) fn read(f: &[u8]) -> Result<Heading, Refusal>
    ensures { told_heading result ≡ read_header Network f.now }
{
    if f.len() < 2 {
        return Err(Refusal::Short);
    }
    let c = octets::number2(f, 0);
    if !form(c) {
        return Err(Refusal::Form);
    }
    Ok(Heading {
        octets: header_length(f, c),
        secured: is_secured(c),
    })
}

// Whether a key identifier and a nonce bit are the network layer's.
#[tactic(auto, unfolding(crate::specs::Network::network_keyed))]
pub(crate) fn is_keyed(identifier: u8, extended: u8) -> bool
    ensures { result ≡ network_keyed identifier extended }
{
    if identifier != 1 {
        return false;
    }
    extended == 1
}
