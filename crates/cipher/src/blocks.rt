// Octet strings, a block of 16 at a time: whole ones are read by a copy of fixed length, the last one is padded
// with zeros.
ghost use Rattle.std.specs.Prelude.{◌≡◌, ◌+◌, ◌≤◌, length};
ghost use Rattle.std.proofs.Math.Seq.{paste};
ghost use Rattle.cipher.specs.Blocks.{two_octets, block_from};

// The first 16 octets of d, or all and zeros behind them.
pub(crate) fn zero_padded(d: &[u8]) -> [u8; 16]
    ensures { result ≡ block_from d.now 0 }
{
    match d.first_chunk() {
        Some(whole) => *whole,
        None => {
            let mut t = [0u8; 16];
            t[..d.len()].copy_from_slice(d);
            t
        }
    }
}

// The lower two octets of n, the higher first.
pub(crate) fn two_octets(n: usize) -> [u8; 2]
    ensures { result ≡ two_octets n }
{
    ((n % 65536) as u16).to_be_bytes()
}

// The first n octets of a block laid into out at place i.
pub(crate) fn put_block(out: &mut [u8], i: usize, b: [u8; 16], n: usize)
    requires { (i + n ≤ length out.old) × (n ≤ 16) }
    ensures { out.new ≡ paste out.old i b n }
{
    out[i..i + n].copy_from_slice(&b[..n]);
}
