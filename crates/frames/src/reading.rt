// Frames read in the order in which document 01 judges them, up to where a key is looked for.
ghost use Rattle.std.specs.Prelude.{◌≡◌, ◌<◌, length};
ghost use Rattle.settings.specs.Settings.{ours};
ghost use Rattle.frames.specs.Layers.{suits, given_to};
ghost use Rattle.frames.specs.Reading.{told_read, announced, read_header, read_secured, read_plain, reading, told_plain, reading_plain, reading_command};
ghost use Rattle.frames.specs.Code.{told_heading};

use crate::{Heading, Layer, Read, Secured, aps_header, network_header, security};
use answers::Refusal;

fn read_header(l: Layer, f: &[u8]) -> Result<Heading, Refusal>
    ensures { told_heading result ≡ read_header l f.now }
{
    match l {
        Layer::Network => network_header::read(f),
        Layer::Aps => aps_header::read(f),
    }
}

// The network layer looks at no sender that the caller gives.
fn given_to(l: Layer, given: u64) -> u64
    ensures { result ≡ given_to l given }
{
    match l {
        Layer::Network => 0,
        Layer::Aps => given,
    }
}

// What the auxiliary header behind h octets of header announces.
#[tactic(auto, unfolding(crate::specs::Reading::announced, crate::specs::Security::counter_of))]
fn announce(f: &[u8], h: usize, given: u64) -> Secured
    requires { h < length f.now }
    ensures { result ≡ announced f.now h given }
{
    let control = f[h];
    let aux = security::aux_length(control);
    let counter = octets::number4(f, h + 1);
    let sender = security::sender(f, h, given);
    let sequence = security::sequence(f, h);
    Secured {
        header: h,
        aux,
        control,
        counter,
        sender,
        sequence,
    }
}

// Whether a security control has a key identifier and a nonce bit of the layer.
fn is_suited(l: Layer, control: u8) -> bool
    ensures { result ≡ suits l control }
{
    let identifier = security::identifier(control);
    match l {
        Layer::Network => network_header::is_keyed(identifier, security::extended(control)),
        Layer::Aps => aps_header::is_keyed(identifier),
    }
}

// A secured frame behind h octets of header.
#[tactic(auto, unfolding(crate::specs::Reading::read_secured))]
fn secured_behind(l: Layer, f: &[u8], h: usize, given: u64) -> Result<Read, Refusal>
    ensures { told_read result ≡ read_secured ours l f.now h given }
{
    if f.len() <= h {
        return Err(Refusal::Short);
    }
    if !is_suited(l, f[h]) {
        return Err(Refusal::Security);
    }
    if f.len() < h + security::aux_length(f[h]) + settings::TAG {
        return Err(Refusal::Short);
    }
    if octets::no_address(security::sender(f, h, given)) {
        return Err(Refusal::Security);
    }
    Ok(Read::Secured(announce(f, h, given)))
}

#[tactic(auto, unfolding(crate::specs::Reading::read_plain))]
fn plain_behind(f: &[u8], h: usize) -> Result<Read, Refusal>
    ensures { told_read result ≡ read_plain f.now h }
{
    if f.len() < h {
        return Err(Refusal::Short);
    }
    Ok(Read::Plain(h))
}

// A frame that is to be opened; given is the sender of an APS frame that carries none.
#[tactic(auto, unfolding(crate::specs::Reading::reading))]
pub fn read_frame(layer: Layer, frame: &[u8], given: u64) -> Result<Read, Refusal>
    ensures { told_read result ≡ reading ours layer frame.now given }
{
    let heading = read_header(layer, frame)?;
    if heading.secured {
        return secured_behind(layer, frame, heading.octets, given_to(layer, given));
    }
    plain_behind(frame, heading.octets)
}

// A plain frame that is to be sealed.
#[tactic(auto, unfolding(crate::specs::Reading::reading_plain))]
pub fn read_plain(layer: Layer, frame: &[u8]) -> Result<usize, Refusal>
    ensures { told_plain result ≡ reading_plain layer frame.now }
{
    let heading = read_header(layer, frame)?;
    if heading.secured {
        return Err(Refusal::Form);
    }
    if frame.len() < heading.octets {
        return Err(Refusal::Short);
    }
    Ok(heading.octets)
}

// A plain APS frame whose command is to be read.
#[tactic(auto, unfolding(crate::specs::Reading::reading_command, crate::specs::Aps::aps_type))]
pub fn read_command(frame: &[u8]) -> Result<usize, Refusal>
    ensures { told_plain result ≡ reading_command frame.now }
{
    let heading = aps_header::read(frame)?;
    if frame.len() < heading.octets {
        return Err(Refusal::Short);
    }
    if octets::octet(frame, 0) % 4 != 1 || heading.secured {
        return Err(Refusal::Form);
    }
    Ok(heading.octets)
}
