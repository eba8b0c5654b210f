// AES-128, CCM*, AES-MMO and the keyed hash: what the frame work above knows by its promises alone.
//
// Every routine here answers every input. The S-box and the round constants are made once a call and
// lent downward, since a constant that is used in place is rebuilt on the stack at each use; a key is
// expanded once.
#![tactic(auto)]

mod aes;
mod blocks;
mod ccm;
mod mmo;
mod words;

ghost use Rattle.std.specs.Prelude.{◌≡◌};
ghost use Rattle.cipher.specs.Aes.{aes128};
ghost use Rattle.cipher.specs.Code.{judged};
ghost use Rattle.cipher.specs.Answers.{product, counted, hashed, sealing, opening, hashing, keyed_hashing};

use crate::aes::Tables;
use crate::ccm::Ccm;

// A refusal, by the number that document 01 gives it: 1, 2, 3, 9 and 14.
#[derive(Clone, Copy, Debug, PartialEq, Eq)]
pub enum Fault {
    Room,
    Long,
    Short,
    Forged,
    Argument,
}

// AES-128 of a block (FIPS 197).
pub fn aes128_block(key: [u8; 16], block: [u8; 16]) -> [u8; 16]
    ensures { result ≡ aes128 key block }
{
    let tables = Tables::new();
    tables.expand(key).encipher(block)
}

// What sealing and opening refuse first.
fn judged(tag: usize, authenticated: &[u8]) -> Result<(), Fault>
    ensures { result ≡ judged tag authenticated.now }
{
    if !ccm::tag_length(tag) {
        return Err(Fault::Argument);
    }
    if 128 < authenticated.len() {
        return Err(Fault::Long);
    }
    Ok(())
}

// CCM* of Annex A: the payload enciphered, and its tag of so many octets, at the start of out. Refused
// are a tag of another length than CCM* has (14), more than 128 authenticated or payload octets (2)
// and an output without room (1); out is then as it stood.
pub fn seal(
    tag: usize,
    key: [u8; 16],
    nonce: [u8; 13],
    authenticated: &[u8],
    payload: &[u8],
    out: &mut [u8],
) -> Result<usize, Fault>
    ensures { product (counted result) out.new ≡ sealing tag key nonce authenticated.now payload.now out.old }
{
    judged(tag, authenticated)?;
    if 128 < payload.len() {
        return Err(Fault::Long);
    }
    if out.len() < payload.len() + tag {
        return Err(Fault::Room);
    }
    let tables = Tables::new();
    let ccm = Ccm {
        key: tables.expand(key),
        tag,
        nonce,
    };
    ccm.seal(authenticated, payload, out);
    Ok(payload.len() + tag)
}

// The reverse: what was sealed is taken for ciphertext and tag, and the plain octets are laid at the
// start of out where the tag fits (else 9). Refused are, before that, a tag of another length than
// CCM* has (14), more than 128 authenticated or payload octets (2), fewer octets than the tag has (3)
// and an output without room (1). A refusal leaves out as it stood.
pub fn unseal(
    tag: usize,
    key: [u8; 16],
    nonce: [u8; 13],
    authenticated: &[u8],
    sealed: &[u8],
    out: &mut [u8],
) -> Result<usize, Fault>
    ensures { product (counted result) out.new ≡ opening tag key nonce authenticated.now sealed.now out.old }
{
    judged(tag, authenticated)?;
    if 128 + tag < sealed.len() {
        return Err(Fault::Long);
    }
    if sealed.len() < tag {
        return Err(Fault::Short);
    }
    if out.len() < sealed.len() - tag {
        return Err(Fault::Room);
    }
    let tables = Tables::new();
    let ccm = Ccm {
        key: tables.expand(key),
        tag,
        nonce,
    };
    ccm.open(authenticated, sealed, out)
}

// AES-MMO of up to 256 octets; more of them is 2.
pub fn hash(input: &[u8]) -> Result<[u8; 16], Fault>
    ensures { hashed result ≡ hashing input.now }
{
    if 256 < input.len() {
        return Err(Fault::Long);
    }
    let tables = Tables::new();
    Ok(mmo::hash_from(&tables, [0u8; 16], 0, input))
}

// The keyed hash, HMAC over AES-MMO, of up to 240 octets; more of them is 2.
pub fn keyed_hash(key: [u8; 16], input: &[u8]) -> Result<[u8; 16], Fault>
    ensures { hashed result ≡ keyed_hashing key input.now }
{
    if 240 < input.len() {
        return Err(Fault::Long);
    }
    let tables = Tables::new();
    Ok(mmo::keyed_hash_of(&tables, key, input))
}
