// CCM* of Annex A of source document 002, with L = 2, under an expanded key.
ghost use Rattle.std.specs.Prelude.{◌≡◌, ◌++◌, ◌+◌, ◌-◌, ◌*◌, ◌/◌, ◌≤◌, min, length};
ghost use Rattle.octets.specs.Lists.{at, tab, onto};
ghost use Rattle.cipher.specs.Aes.{cipher, add_blocks};
ghost use Rattle.cipher.specs.Blocks.{two_octets, blocks, over};
ghost use Rattle.cipher.specs.Ccm.{field, absorbed, mac_of, key_stream, streamed, ccm_seal, ccm_open, led};
ghost use Rattle.cipher.specs.Answers.{tag_length, product, counted, opened_onto};

use crate::Fault;
use crate::aes::{Keyed, add_blocks};
use crate::blocks::{put_block, two_octets, zero_padded};

// CCM* with what each of its steps takes: a key, the length M of the tag, and the nonce N.
#[derive(Drop)]
pub(crate) struct Ccm<'a> {
    pub(crate) key: Keyed<'a>,
    pub(crate) tag: usize,
    pub(crate) nonce: [u8; 13],
    ghost short: { tag ≤ 16 },
}

// Whether M may be the length of a tag.
pub(crate) fn tag_length(m: usize) -> bool
    ensures { result ≡ tag_length m }
{
    matches!(m, 0 | 4 | 6 | 8 | 10 | 12 | 14 | 16)
}

// Flags, nonce and a number of two octets: the form of B0 and of every Ai.
fn field_of(f: u8, n: [u8; 13], i: usize) -> [u8; 16]
    ensures { result ≡ field f n i }
{
    let mut t = [0u8; 16];
    t[0] = f;
    t[14..].copy_from_slice(&two_octets(i));
    t[1..14].copy_from_slice(&n);
    t
}

// The first block of L(a) || a, from the first block of a.
fn lead_block(l: usize, b: [u8; 16]) -> [u8; 16]
    ensures { result ≡ two_octets l ++ tab 14 (at b) }
{
    let mut t = [0u8; 16];
    t[..2].copy_from_slice(&two_octets(l));
    t[2..].copy_from_slice(&b[..14]);
    t
}

// (M - 2) / 2, or 0 if M = 0.
fn tag_field(m: usize) -> u8
    requires { m ≤ 16 }
    ensures { (result ≡ (m - 2) / 2) × (result ≤ 7) }
{
    (m.saturating_sub(2) / 2) as u8
}

fn flags_of(m: usize, l: usize) -> u8
    requires { m ≤ 16 }
    ensures { result ≡ 64 * min 1 l + 8 * ((m - 2) / 2) + 1 }
{
    let marked = if l == 0 { 0 } else { 64 };
    marked + 8 * tag_field(m) + 1
}

impl Ccm<'_> {
    fn absorb(&self, x: [u8; 16], b: [u8; 16]) -> [u8; 16]
        ensures { result ≡ absorbed (cipher self.now.key.keys) x b }
    {
        self.key.encipher(add_blocks(x, b))
    }

    // The chain over the blocks of d.
    fn absorb_each(&self, x: [u8; 16], d: &[u8]) -> [u8; 16]
        ensures { result ≡ over (absorbed (cipher self.now.key.keys)) x (blocks d.now) }
    {
        let mut y = x;
        for chunk in d.chunks(16) {
            let next = self.absorb(y, zero_padded(chunk));
            y = next;
        }
        y
    }

    // The chain over the blocks of L(a) || a.
    fn absorb_led(&self, x: [u8; 16], a: &[u8]) -> [u8; 16]
        ensures { result ≡ over (absorbed (cipher self.now.key.keys)) x (blocks (led a.now)) }
    {
        if a.is_empty() {
            return x;
        }
        let y = self.absorb(x, lead_block(a.len(), zero_padded(a)));
        self.absorb_each(y, &a[a.len().min(14)..])
    }

    // The CBC-MAC value of A.2.2.
    fn mac_of(&self, a: &[u8], p: &[u8]) -> [u8; 16]
        ensures { result ≡ mac_of (cipher self.now.key.keys) self.now.tag self.now.nonce a.now p.now }
    {
        let first = field_of(flags_of(self.tag, a.len()), self.nonce, p.len());
        let x = self.key.encipher(first);
        let y = self.absorb_led(x, a);
        self.absorb_each(y, p)
    }

    fn key_stream(&self, i: usize) -> [u8; 16]
        ensures { result ≡ key_stream (cipher self.now.key.keys) self.now.nonce i }
    {
        self.key.encipher(field_of(1, self.nonce, i))
    }

    // d enciphered, or deciphered, at the start of out.
    fn stream_into(&self, d: &[u8], out: &mut [u8])
        requires { length d.now ≤ length out.old }
        ensures { out.new ≡ onto (streamed (cipher self.now.key.keys) self.now.nonce d.now) out.old }
    {
        for (i, chunk) in d.chunks(16).enumerate() {
            let s = self.key_stream(i + 1);
            let c = add_blocks(zero_padded(chunk), s);
            put_block(out, 16 * i, c, chunk.len());
        }
    }

    // A tag, or what stands for one, added to S0.
    fn mask(&self, t: [u8; 16]) -> [u8; 16]
        ensures { result ≡ add_blocks t (key_stream (cipher self.now.key.keys) self.now.nonce 0) }
    {
        let s = self.key_stream(0);
        add_blocks(t, s)
    }

    // Ciphertext and tag, at the start of out.
    pub(crate) fn seal(&self, a: &[u8], p: &[u8], out: &mut [u8])
        requires { length p.now + self.now.tag ≤ length out.old }
        ensures { out.new ≡ onto (ccm_seal (cipher self.now.key.keys) self.now.tag self.now.nonce a.now p.now) out.old }
    {
        self.stream_into(p, out);
        let t = self.mask(self.mac_of(a, p));
        put_block(out, p.len(), t, self.tag);
    }

    // The plain octets at the start of out, where the tag fits; otherwise out is as it stood.
    pub(crate) fn open(&self, a: &[u8], c: &[u8], out: &mut [u8]) -> Result<usize, Fault>
        requires whole { self.now.tag ≤ length c.now }
        requires fits { length c.now ≤ 128 + self.now.tag }
        requires room { length c.now - self.now.tag ≤ length out.old }
        ensures { product (counted result) out.new
            ≡ opened_onto (ccm_open (cipher self.now.key.keys) self.now.tag self.now.nonce a.now c.now) out.old }
    {
        let l = c.len() - self.tag;
        let mut plain = [0u8; 128];
        self.stream_into(&c[..l], &mut plain);
        let mac = self.mac_of(a, &plain[..l]);
        let tag = self.mask(zero_padded(&c[l..]));
        if !octets::same(&tag[..self.tag], &mac[..self.tag]) {
            return Err(Fault::Forged);
        }
        octets::paste_at(out, 0, &plain[..l]);
        Ok(l)
    }
}
