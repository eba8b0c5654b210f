// TLVs: one walk that tells whether they fill their octets, and finds the first one of a kind.
#![tactic(auto)]

ghost use Rattle.std.specs.Prelude.{◌≡◌, ◌≤◌};
ghost use Rattle.tlvs.specs.Filling.{value_size};
ghost use Rattle.tlvs.specs.Looking.{wants, walked, fills, relays};
ghost use Rattle.tlvs.specs.declared.Wanted.{Wanted};

// What a walk looks for: nothing, a tag, or the TLV that Relay asks for. The definition of a walk has these three.
#[derive(Clone, Copy)]
pub enum Wanted {
    Nothing,
    Tag(u8),
    Relay,
}

// Where the value of a TLV starts, and how many octets it has.
#[derive(Clone, Copy)]
pub struct Value {
    pub start: usize,
    pub size: usize,
}

// That TLVs do not fill the octets.
#[derive(Clone, Copy)]
pub struct Ill;

// A length octet says one less than its value has (02 (iv)): 256 octets at most, and never none.
#[tactic(auto, unfolding(crate::specs::Filling::value_size))]
fn value_size(n: u8) -> usize
    ensures { (result ≡ value_size n) × (result ≤ 256) }
{
    usize::from(n) + 1
}

#[tactic(auto, unfolding(crate::specs::Looking::wants))]
fn is_wanted(w: Wanted, tag: u8, size: usize) -> bool
    ensures { result ≡ wants w tag size }
{
    match w {
        Wanted::Nothing => false,
        Wanted::Tag(a) => tag == a,
        Wanted::Relay => tag == 0 && 8 <= size,
    }
}

// The first TLV that is wanted. The walk is over all of s, whatever it finds on the way: a wanted TLV counts only where
// the last octet of s is the last one of a TLV.
fn walk(s: &[u8], w: Wanted) -> Result<Option<Value>, Ill>
    ensures { result ≡ walked w s.now }
{
    let mut seen = None;
    let mut rest = s;
    while let [tag, n, tail @ ..] = rest {
        let size = value_size(*n);
        if tail.len() < size {
            return Err(Ill);
        }
        let start = s.len() - tail.len();
        let hit = is_wanted(w, *tag, size).then_some(Value { start, size });
        seen = seen.or(hit);
        rest = &tail[size..];
    }
    if rest.is_empty() { Ok(seen) } else { Err(Ill) }
}

// Whether TLVs, zero or more, fill s exactly.
#[tactic(auto, using(crate::proofs::Walks::fills_walked))]
pub fn fills(s: &[u8]) -> bool
    ensures { result ≡ fills s.now }
{
    walk(s, Wanted::Nothing).is_ok()
}

// Whether TLVs fill s exactly, and one of them is what Relay asks for.
#[tactic(auto, unfolding(crate::specs::Looking::relays))]
pub fn relays(s: &[u8]) -> bool
    ensures { result ≡ relays s.now }
{
    matches!(walk(s, Wanted::Relay), Ok(Some(_)))
}

// The value of the first TLV of that tag.
pub fn first_of(s: &[u8], tag: u8) -> Result<Option<Value>, Ill>
    ensures { result ≡ walked (Wanted.Tag tag) s.now }
{
    walk(s, Wanted::Tag(tag))
}
