// FIPS 197's words of four octets: the columns of a state (3.5) and the words of a round key (5.2). Each is
// held as one number, its first octet lowest, and is known by the octets that spell it.
ghost use Rattle.std.specs.Prelude.{◌≡◌, [], ◌∷◌, ◌<◌};
ghost use Rattle.octets.specs.Lists.{at, tab};
ghost use Rattle.octets.specs.Least.{spelled};
ghost use Rattle.cipher.specs.Field.{xtime};
ghost use Rattle.cipher.specs.Aes.{add_blocks, word, rot_word};
ghost use Rattle.cipher.specs.Code.{block_of};

use std::array;

// The word of four octets.
pub(crate) fn word_of(a: u8, b: u8, c: u8, d: u8) -> u32
    ensures { spelled 4 result ≡ a ∷ b ∷ c ∷ d ∷ [] }
{
    u32::from_le_bytes([a, b, c, d])
}

// Word i of a block.
pub(crate) fn word(k: [u8; 16], i: usize) -> u32
    requires { i < 4 }
    ensures { spelled 4 result ≡ word k i }
{
    let start = 4 * i;
    word_of(k[start], k[start + 1], k[start + 2], k[start + 3])
}

// The four words of a block.
pub(crate) fn words_of(b: [u8; 16]) -> [u32; 4]
    ensures { block_of result ≡ b }
{
    array::from_fn(|i| word(b, i))
}

// The block of four words.
pub(crate) fn block_of(w: [u32; 4]) -> [u8; 16]
    ensures { result ≡ block_of w }
{
    array::from_fn(|i| w[i / 4].to_le_bytes()[i % 4])
}

pub(crate) fn add_words(a: [u32; 4], b: [u32; 4]) -> [u32; 4]
    ensures { block_of result ≡ add_blocks (block_of a) (block_of b) }
{
    array::from_fn(|i| a[i] ^ b[i])
}

// RotWord (5.2).
pub(crate) fn rot_word(w: u32) -> u32
    ensures { spelled 4 result ≡ rot_word (spelled 4 w) }
{
    w.rotate_right(8)
}

// Multiplication by {02} of each octet (4.2.1): a shift of the lower seven bits, and {1b} where the
// highest is set.
pub(crate) fn doubled(w: u32) -> u32
    ensures { spelled 4 result ≡ tab 4 (λ j. xtime (at (spelled 4 w) j)) }
{
    (w & 0x7f7f7f7f) * 2 ^ (w / 128 & 0x01010101) * 27
}
