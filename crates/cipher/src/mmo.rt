// AES-MMO (Annex B.6 of source document 002) and the keyed hash (HMAC over it).
ghost use Rattle.std.specs.Prelude.{◌≡◌, ◌++◌, ◌≤◌, length};
ghost use Rattle.octets.specs.Lists.{at, tab};
ghost use Rattle.cipher.specs.Blocks.{blocks, block_from, over};
ghost use Rattle.cipher.specs.Code.{padded_after};
ghost use Rattle.cipher.specs.Hash.{hashed_in, hash_of, plus_each, keyed_hash};

use crate::aes::{Tables, add_blocks};
use std::array;

// Octet i of d, padded, where b octets went before it.
fn padded_octet(d: &[u8], b: usize, i: usize) -> u8
    requires { (length d.now ≤ 256) × ((b ≤ 16) × (i ≤ 528)) }
    ensures { result ≡ at (padded_after b d.now) i }
{
    let l = d.len();
    if i < l {
        return d[i];
    }
    if i == l {
        return 128;
    }
    let end = (l + 18) / 16 * 16;
    if i + 2 == end {
        return (8 * (b + l) / 256 % 256) as u8;
    }
    if i + 1 == end {
        return (8 * (b + l) % 256) as u8;
    }
    0
}

fn padded_block_from(d: &[u8], b: usize, i: usize) -> [u8; 16]
    requires { (length d.now ≤ 256) × ((b ≤ 16) × (i ≤ 512)) }
    ensures { result ≡ block_from (padded_after b d.now) i }
{
    array::from_fn(|j| padded_octet(d, b, i + j))
}

// E(Hash, M) + M.
fn hash_in(tables: &Tables, h: [u8; 16], b: [u8; 16]) -> [u8; 16]
    ensures { result ≡ hashed_in h b }
{
    let key = tables.expand(h);
    add_blocks(key.encipher(b), b)
}

// The hash from h on, over d, where b octets went before it.
pub(crate) fn hash_from(tables: &Tables, h: [u8; 16], b: usize, d: &[u8]) -> [u8; 16]
    requires { (length d.now ≤ 256) × (b ≤ 16) }
    ensures { result ≡ over hashed_in h (blocks (padded_after b d.now)) }
{
    let n = (d.len() + 18) / 16;
    // The padded blocks stand nowhere in memory: block i is made.
    let mut x = h;
    for i in 0..n {
        let next = hash_in(tables, x, padded_block_from(d, b, 16 * i));
        x = next;
    }
    x
}

fn plus_each(k: [u8; 16], x: u8) -> [u8; 16]
    ensures { result ≡ plus_each k x }
{
    array::from_fn(|i| k[i] ^ x)
}

// The hash of a key, each of its octets added to x, and then of d.
fn hash_behind(tables: &Tables, k: [u8; 16], x: u8, d: &[u8]) -> [u8; 16]
    requires { length d.now ≤ 256 }
    ensures { result ≡ hash_of (plus_each k x ++ d.now) }
{
    let h = hash_in(tables, [0u8; 16], plus_each(k, x));
    hash_from(tables, h, 16, d)
}

pub(crate) fn keyed_hash_of(tables: &Tables, k: [u8; 16], d: &[u8]) -> [u8; 16]
    requires { length d.now ≤ 256 }
    ensures { result ≡ keyed_hash k d.now }
{
    let inner = hash_behind(tables, k, 0x36, d);
    hash_behind(tables, k, 0x5c, &inner)
}
