// The three keys of a link entry.
ghost use Rattle.std.specs.Prelude.{◌≡◌, ◌∷◌, []};
ghost use Rattle.octets.specs.Keys.{the_key};
ghost use Rattle.cipher.specs.Hash.{keyed_hash};
ghost use Rattle.frames.specs.Security.{identifier_of};
ghost use Rattle.aps.specs.Keys.{key_for};
ghost use Rattle.aps.specs.Opening.{key_named};

use board::Link;
use frames::Secured;

// The key that an identifier of 0, 2 or 3 names.
#[tactic(auto, unfolding(crate::specs::Keys::key_for))]
pub(crate) fn key_for(key: [u8; 16], identifier: u8) -> [u8; 16]
    ensures { the_key result ≡ key_for (the_key key) identifier }
{
    if identifier == 0 {
        return key;
    }
    if identifier == 2 {
        return hashed(key, 0x00);
    }
    hashed(key, 0x02)
}

fn hashed(key: [u8; 16], x: u8) -> [u8; 16]
    ensures { result ≡ keyed_hash key (x ∷ []) }
{
    cipher::keyed_hash(key, &[x]).unwrap()
}

pub(crate) fn identifier(s: Secured) -> u8
    ensures { result ≡ identifier_of s.control }
{
    frames::identifier(s.control)
}

// The key of an entry that a secured frame names.
pub(crate) fn key_named(l: Link, s: Secured) -> [u8; 16]
    ensures { the_key result ≡ key_named l s }
{
    key_for(l.key, identifier(s))
}
