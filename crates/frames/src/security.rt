// The security control, the auxiliary header and the nonce.
ghost use Rattle.std.specs.Prelude.{◌≡◌, [], ◌∷◌, ◌++◌, ◌%◌, ◌≤◌, ◌<◌, length};
ghost use Rattle.octets.specs.Lists.{pasted};
ghost use Rattle.octets.specs.Least.{spelled};
ghost use Rattle.settings.specs.Settings.{ours};
ghost use Rattle.frames.specs.Security.{identifier_of, extended_of, with_level, wire_control, aux_length, sender_of, sequence_of, nonce_of, auxiliary};

use crate::Auxiliary;

// The key identifier that a security control names.
#[tactic(auto, unfolding(crate::specs::Security::identifier_of))]
pub fn identifier(control: u8) -> u8
    ensures { result ≡ identifier_of control }
{
    (control >> 3) & 3
}

#[tactic(auto, unfolding(crate::specs::Security::extended_of))]
pub(crate) fn extended(control: u8) -> u8
    ensures { result ≡ extended_of control }
{
    (control >> 5) & 1
}

#[tactic(auto, using(crate::proofs::Controls::level_laid), unfolding(crate::specs::Security::with_level))]
pub(crate) fn with_level(control: u8) -> u8
    ensures { result ≡ with_level ours control }
{
    (control & 0xf8) | settings::LEVEL
}

// The security control that sealing sends: level 0, the identifier, of which only the two lowest
// bits count, and extended nonce.
#[tactic(auto, unfolding(crate::specs::Security::wire_control))]
pub fn wire_control(identifier: u8) -> u8
    ensures { result ≡ wire_control (identifier % 4) }
{
    ((identifier & 3) << 3) | 0x20
}

#[tactic(auto, unfolding(crate::specs::Security::aux_length, crate::specs::Security::numbered, crate::specs::Security::extended_of))]
pub(crate) fn aux_length(control: u8) -> usize
    ensures { (result ≡ aux_length control) × (result ≤ 14) }
{
    let long = usize::from(extended(control));
    if identifier(control) == 1 {
        return 6 + 8 * long;
    }
    5 + 8 * long
}

#[tactic(auto, unfolding(crate::specs::Security::sender_of))]
pub(crate) fn sender(f: &[u8], h: usize, given: u64) -> u64
    requires { h < length f.now }
    ensures { result ≡ sender_of f.now h given }
{
    if extended(f[h]) == 1 {
        return octets::number8(f, h + 5);
    }
    given
}

#[tactic(auto, unfolding(crate::specs::Security::sequence_of))]
pub(crate) fn sequence(f: &[u8], h: usize) -> u8
    requires { h < length f.now }
    ensures { result ≡ sequence_of f.now h }
{
    let control = f[h];
    if identifier(control) == 1 {
        let long = usize::from(extended(control));
        return octets::octet(f, h + 5 + 8 * long);
    }
    0
}

// The nonce of CCM*, its control with the level that is worked with.
#[tactic(auto, unfolding(crate::specs::Security::nonce_of))]
pub fn nonce(sender: u64, counter: u32, control: u8) -> [u8; 13]
    ensures { result ≡ nonce_of ours sender counter control }
{
    let address = octets::spelled8(sender);
    let count = octets::spelled4(counter);
    let mut octets = [0u8; 13];
    octets::paste_at(&mut octets, 0, &address);
    octets::paste_at(&mut octets, 8, &count);
    octets[12] = with_level(control);
    octets
}

// The fields of the auxiliary header, the key sequence number last.
fn aux_fields(aux: Auxiliary) -> [u8; 14]
    ensures { result ≡ wire_control (aux.identifier % 4) ∷ (spelled 4 aux.counter ++ (spelled 8 aux.sender ++ (aux.sequence ∷ []))) }
{
    let count = octets::spelled4(aux.counter);
    let address = octets::spelled8(aux.sender);
    let mut octets = [0u8; 14];
    octets[0] = wire_control(aux.identifier);
    octets::paste_at(&mut octets, 1, &count);
    octets::paste_at(&mut octets, 5, &address);
    octets[13] = aux.sequence;
    octets
}

// The auxiliary header laid into out from place i on. Where it does not fit, out is as it stood.
pub fn lay_auxiliary(out: &mut [u8], i: usize, aux: Auxiliary)
    ensures { out.new ≡ pasted out.old i (auxiliary (aux.identifier % 4) aux.counter aux.sender aux.sequence) }
{
    let fields = aux_fields(aux);
    if aux.identifier % 4 == 1 {
        octets::paste_at(out, i, &fields);
    } else {
        octets::paste_at(out, i, &fields[..13]);
    }
}
