// An output that is filled from the front: each function lays its text at a place and answers the
// place behind it.
ghost use Rattle.std.specs.Prelude.{◌≡◌};
ghost use Rattle.octets.specs.Lists.{pasted};
ghost use Rattle.octets.specs.Parts.{seen, cut};
ghost use Rattle.text.specs.Cursor.{ahead};

// Lays src into out at that place. What has no room is left out whole, and the place stays.
#[tactic(auto, unfolding(crate::specs::Cursor::ahead))]
pub fn put(out: &mut [u8], at: usize, src: &[u8]) -> usize
    ensures { (out.new ≡ pasted out.old at src.now) × (result ≡ ahead out.old at src.now) }
{
    if out.len() < src.len() || out.len() - src.len() < at {
        return at;
    }
    octets::paste_at(out, at, src);
    at + src.len()
}

// The first n octets of out, or all where it has fewer, as that part of it.
pub fn front(out: &[u8], n: usize) -> &[u8]
    ensures { seen result ≡ cut out.entry 0 n }
{
    &out[..n.min(out.len())]
}
