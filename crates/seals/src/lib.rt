// Secured frames and their keys: what both layers do alike once a key was found.
#![tactic(auto)]

ghost use Rattle.std.specs.Prelude.{◌≡◌, ◌≤◌, true, length, take, drop};
ghost use Rattle.settings.specs.Settings.{ours, longest};
ghost use Rattle.octets.specs.Keys.{the_key};
ghost use Rattle.cipher.specs.Answers.{counted, product, opening};
ghost use Rattle.cipher.specs.Answers.{sealing as cipher_sealing};
ghost use Rattle.seals.specs.Sealing.{sound, sent_octets, told_unsealed, told_enclosed, unsealing, looking, sealable};
ghost use Rattle.seals.specs.Sealing.{sealing as seals_sealing};

use cipher::Fault;
use frames::{Auxiliary, Layer, Secured};

// A secured frame that has what it announces: both headers and the tag, a header that has the security
// bit, and no more than 116 octets.
#[derive(Clone, Copy)]
pub struct Incoming<'a> {
    pub frame: &'a [u8],
    pub secured: Secured,
    ghost fits: { sound ours frame.now secured ≡ true },
}

// A plain frame that is to be sealed, with so many octets of header.
#[derive(Clone, Copy)]
pub struct Outgoing<'a> {
    pub frame: &'a [u8],
    pub header: usize,
    ghost headed: { (2 ≤ header) × (header ≤ length frame.now) },
}

#[tactic(auto, unfolding(crate::specs::Sealing::sound))]
fn is_sound(f: &[u8], s: Secured) -> bool
    ensures { result ≡ sound ours f.now s }
{
    let h = s.header;
    let x = s.aux;
    if h < 2 {
        return false;
    }
    if f.len() < h {
        return false;
    }
    if f.len() - h < x {
        return false;
    }
    if f.len() < h + x + settings::TAG {
        return false;
    }
    f.len() <= settings::LONGEST
}

// The plain frame of a secured one, at the start of out, where its tag fits the key. Otherwise, and
// where out has fewer than 116 octets, out is as it stood.
#[tactic(auto, unfolding(crate::specs::Sealing::unsealing))]
pub fn unseal(
    key: [u8; 16],
    layer: Layer,
    frame: &[u8],
    secured: Secured,
    out: &mut [u8],
) -> Option<usize>
    ensures { product (told_unsealed result) out.new ≡ unsealing ours (the_key key) layer frame.now secured out.old }
{
    if !is_sound(frame, secured) {
        return None;
    }
    if out.len() < settings::LONGEST {
        return None;
    }
    unseal_sound(key, layer, frame, secured, out)
}

// The cipher's part, which writes behind h octets of out. That of sealing, below, has a function of its own: over a
// closure the contract could say of these parts only what the closure promises of them.
fn unseal_body(
    key: [u8; 16],
    nonce: [u8; 13],
    a: &[u8],
    f: &[u8],
    n: usize,
    h: usize,
    out: &mut [u8],
) -> Result<usize, Fault>
    requires { (n ≤ length f.now) × (h ≤ length out.old) }
    ensures out_after { product (counted result) (drop h out.new) ≡ opening ours.tag key nonce a.now (drop n f.now) (drop h out.old) }
    ensures out_unchanged { take h out.new ≡ take h out.old }
{
    cipher::unseal(settings::TAG, key, nonce, a, &f[n..], &mut out[h..])
}

#[tactic(auto, unfolding(crate::specs::Sealing::sound))]
fn unseal_sound(key: [u8; 16], l: Layer, f: &[u8], s: Secured, out: &mut [u8]) -> Option<usize>
    requires { (sound ours f.now s ≡ true) × (longest ≤ length out.old) }
    ensures { product (told_unsealed result) out.new ≡ unsealing ours (the_key key) l f.now s out.old }
{
    let h = s.header;
    let n = h + s.aux;
    let mut a = [0u8; settings::LONGEST];
    frames::lay_authenticated(&mut a, f, h, n);
    let nonce = frames::nonce(s.sender, s.counter, s.control);
    let m = unseal_body(key, nonce, &a[..n], f, n, h, out).ok()?;
    frames::lay_plain_header(out, l, f, h);
    Some(h + m)
}

// Whether the tag of a secured frame fits a key. It changes nothing.
pub fn look(key: [u8; 16], frame: &[u8], secured: Secured) -> bool
    ensures { result ≡ looking ours (the_key key) frame.now secured }
{
    let mut out = [0u8; settings::LONGEST];
    unseal(key, Layer::Aps, frame, secured, &mut out).is_some()
}

// How many octets of the auxiliary header are sent: only identifier 1 sends a key sequence number.
#[tactic(auto, unfolding(crate::specs::Sealing::sent_octets))]
fn sent_octets(identifier: u8) -> usize
    ensures { (result ≡ sent_octets identifier) × (result ≤ 14) }
{
    if identifier == 1 {
        return settings::NETWORK_AUX;
    }
    settings::APS_AUX
}

#[tactic(auto, unfolding(crate::specs::Sealing::sealable))]
fn is_sealable(identifier: u8, f: &[u8], h: usize) -> bool
    ensures { result ≡ sealable ours identifier f.now h }
{
    if h < 2 {
        return false;
    }
    if f.len() < h {
        return false;
    }
    if settings::LONGEST < f.len() {
        return false;
    }
    f.len() + sent_octets(identifier) + settings::TAG <= settings::LONGEST
}

// The secured frame of a plain frame with so many octets of header, at the start of out, with the
// length that it answers. None is made, and out stays, where the identifier is above 3, where the
// frame has fewer octets or leaves no room for auxiliary header and tag, or where out has fewer than
// 116 octets.
#[tactic(auto, unfolding(crate::specs::Sealing::sealing))]
pub fn seal(
    key: [u8; 16],
    layer: Layer,
    aux: Auxiliary,
    frame: &[u8],
    header: usize,
    out: &mut [u8],
) -> Option<usize>
    ensures { product (told_enclosed result) out.new ≡ seals_sealing ours (the_key key) layer aux.identifier aux.counter aux.sender aux.sequence frame.now header out.old }
{
    if 3 < aux.identifier {
        return None;
    }
    if !is_sealable(aux.identifier, frame, header) {
        return None;
    }
    if out.len() < settings::LONGEST {
        return None;
    }
    seal_sound(key, layer, aux, frame, header, out)
}

// Both headers, then the cipher's part behind them.
#[tactic(auto, unfolding(crate::specs::Sealing::sealable))]
fn seal_sound(
    key: [u8; 16],
    l: Layer,
    aux: Auxiliary,
    f: &[u8],
    h: usize,
    out: &mut [u8],
) -> Option<usize>
    requires { (aux.identifier ≤ 3) × ((sealable ours aux.identifier f.now h ≡ true) × (longest ≤ length out.old)) }
    ensures { product (told_enclosed result) out.new ≡ seals_sealing ours (the_key key) l aux.identifier aux.counter aux.sender aux.sequence f.now h out.old }
{
    let n = h + sent_octets(aux.identifier);
    frames::lay_secured_header(out, l, f, h);
    frames::lay_auxiliary(out, h, aux);
    let mut a = [0u8; settings::LONGEST];
    frames::lay_authenticated(&mut a, out, h, n);
    let nonce = frames::nonce(
        aux.sender,
        aux.counter,
        frames::wire_control(aux.identifier),
    );
    let m = seal_body(key, nonce, &a[..n], f, h, n, out).ok()?;
    Some(n + m)
}

// The cipher's part, which writes behind n octets of out.
fn seal_body(
    key: [u8; 16],
    nonce: [u8; 13],
    a: &[u8],
    f: &[u8],
    h: usize,
    n: usize,
    out: &mut [u8],
) -> Result<usize, Fault>
    requires { (h ≤ length f.now) × (n ≤ length out.old) }
    ensures out_after { product (counted result) (drop n out.new) ≡ cipher_sealing ours.tag key nonce a.now (drop h f.now) (drop n out.old) }
    ensures out_unchanged { take n out.new ≡ take n out.old }
{
    cipher::seal(settings::TAG, key, nonce, a, &f[h..], &mut out[n..])
}
