// Octets and addresses in hex. It is read in either case and written small.
ghost use Rattle.std.specs.Prelude.{◌≡◌, true, ◌/◌, ◌<◌, ◌≤◌, length};
ghost use Rattle.octets.specs.Lists.{pasted, onto};
ghost use Rattle.io.specs.Digits.{hex_digit_ascii as glyph};
ghost use Rattle.text.specs.Cursor.{ahead};
ghost use Rattle.text.specs.Digits.{all_digits, spelt};
ghost use Rattle.text.specs.Hex.{hex_of, octets_of, unhexed, read_into, address, address_of};

use crate::cursor::put;
use crate::digits::{all_digits, digit};

// Reads hex into the front of out, and answers how many octets; nothing where it is no hex, or more than there is
// room for. All of it is looked at before out is touched, so that a refusal leaves out as it stood.
#[tactic(auto, unfolding(crate::specs::Hex::unhexed, crate::specs::Hex::is_hex))]
pub fn octets_of(s: &[u8], out: &mut [u8]) -> Option<usize>
    ensures { read_into result out.new ≡ unhexed s.now out.old }
{
    let n = s.len() / 2;
    if s.len() % 2 != 0 || out.len() < n || !all_digits(16, s) {
        return None;
    }
    fill(s, out);
    Some(n)
}

// Reads an address, 16 digits with the most significant first; nothing where s is no such digits.
#[tactic(auto, unfolding(crate::specs::Hex::address_of))]
pub fn address_of(s: &[u8]) -> Option<u64>
    ensures { result ≡ address_of s.now }
{
    (s.len() == 16 && all_digits(16, s)).then(|| value(s))
}

// Writes the octets of src in hex.
pub fn put_hex(out: &mut [u8], at: usize, src: &[u8]) -> usize
    ensures { (out.new ≡ pasted out.old at (hex_of src.now)) × (result ≡ ahead out.old at (hex_of src.now)) }
{
    if out.len() / 2 < src.len() || out.len() - src.len() * 2 < at {
        return at;
    }
    for (j, x) in src.iter().enumerate() {
        out[at + j * 2] = glyph(x / 16);
        out[at + j * 2 + 1] = glyph(x % 16);
    }
    at + src.len() * 2
}

// Writes an address.
pub fn put_address(out: &mut [u8], at: usize, a: u64) -> usize
    ensures { (out.new ≡ pasted out.old at (address a)) × (result ≡ ahead out.old at (address a)) }
{
    let mut text = [0u8; 16];
    let n = io::hex(a, 16, &mut text);
    put(out, at, &text[..n])
}

// The octets that s spells, laid at the front of out: by their place, here and in `put_hex`, since once a list was
// lent by `iter_mut` a proof knows its length alone.
fn fill(s: &[u8], out: &mut [u8])
    requires s_in_bounds { length s.now / 2 ≤ length out.old }
    requires s_value { all_digits 16 s.now ≡ true }
    ensures { out.new ≡ onto (octets_of s.now) out.old }
{
    for (i, [high, low]) in s.as_chunks::<2>().0.iter().enumerate() {
        out[i] = digit(*high) * 16 + digit(*low);
    }
}

// The number that 16 digits spell.
fn value(s: &[u8]) -> u64
    requires s_len { length s.now ≡ 16 }
    requires s_value { all_digits 16 s.now ≡ true }
    ensures { result ≡ spelt 16 0 s.now }
{
    let mut n: u64 = 0;
    for c in s {
        n = n * 16 + u64::from(digit(*c));
    }
    n
}

// Digit d in hex.
fn glyph(d: u8) -> u8
    requires { d < 16 }
    ensures { result ≡ glyph d }
{
    if d < 10 { b'0' + d } else { b'a' + (d - 10) }
}
