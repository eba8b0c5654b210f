// AES-128, as FIPS 197 has it: its names, its order. From round to round a state is four words, its
// columns; that measured best (DECISIONS, ii-shape). The S-box and the shift of rows take its octets.
ghost use Rattle.std.specs.Prelude.{◌≡◌};
ghost use Rattle.octets.specs.Lists.{tab};
ghost use Rattle.octets.specs.Least.{spelled};
ghost use Rattle.cipher.specs.Sbox.{sbox, sbox_table};
ghost use Rattle.cipher.specs.Aes.{sub_bytes, shift_rows, mix_columns, add_blocks, add_round_key, round_of, last_round, cipher, rcon, turned_word, spread, next_key, key_expansion};
ghost use Rattle.cipher.specs.Code.{block_of, mixed_column};

use crate::words::{add_words, block_of, doubled, rot_word, word, word_of, words_of};
use std::array;

// FIPS 197, figure 7.
const SBOX: [u8; 256] = [
    99, 124, 119, 123, 242, 107, 111, 197, 48, 1, 103, 43, 254, 215, 171, 118, 202, 130, 201, 125,
    250, 89, 71, 240, 173, 212, 162, 175, 156, 164, 114, 192, 183, 253, 147, 38, 54, 63, 247, 204,
    52, 165, 229, 241, 113, 216, 49, 21, 4, 199, 35, 195, 24, 150, 5, 154, 7, 18, 128, 226, 235,
    39, 178, 117, 9, 131, 44, 26, 27, 110, 90, 160, 82, 59, 214, 179, 41, 227, 47, 132, 83, 209, 0,
    237, 32, 252, 177, 91, 106, 203, 190, 57, 74, 76, 88, 207, 208, 239, 170, 251, 67, 77, 51, 133,
    69, 249, 2, 127, 80, 60, 159, 168, 81, 163, 64, 143, 146, 157, 56, 245, 188, 182, 218, 33, 16,
    255, 243, 210, 205, 12, 19, 236, 95, 151, 68, 23, 196, 167, 126, 61, 100, 93, 25, 115, 96, 129,
    79, 220, 34, 42, 144, 136, 70, 238, 184, 20, 222, 94, 11, 219, 224, 50, 58, 10, 73, 6, 36, 92,
    194, 211, 172, 98, 145, 149, 228, 121, 231, 200, 55, 109, 141, 213, 78, 169, 108, 86, 244, 234,
    101, 122, 174, 8, 186, 120, 37, 46, 28, 166, 180, 198, 232, 221, 116, 31, 75, 189, 139, 138,
    112, 62, 181, 102, 72, 3, 246, 14, 97, 53, 87, 185, 134, 193, 29, 158, 225, 248, 152, 17, 105,
    217, 142, 148, 155, 30, 135, 233, 206, 85, 40, 223, 140, 161, 137, 13, 191, 230, 66, 104, 65,
    153, 45, 15, 176, 84, 187, 22,
];

// FIPS 197, 5.2: the first octets of Rcon[1] to Rcon[10], each the double of the one before.
const RCON: [u8; 10] = [1, 2, 4, 8, 16, 32, 64, 128, 27, 54];

// What FIPS 197 gives as tables. They are made once a call and lent downward, since a constant that is used in
// place is rebuilt on the stack at each use.
#[derive(Drop)]
pub(crate) struct Tables {
    substitutes: [u8; 256],
    constants: [u8; 10],
    ghost substituting: { substitutes ≡ sbox_table },
    ghost doubling: { constants ≡ tab 10 rcon },
}

// An expanded key: its eleven round keys, and the tables that they were made with.
#[derive(Drop)]
pub(crate) struct Keyed<'a> {
    tables: &'a Tables,
    pub(crate) keys: [[u8; 16]; 11],
}

impl Tables {
    pub(crate) fn new() -> Self {
        Tables {
            substitutes: SBOX,
            constants: RCON,
        }
    }

    fn sub_byte(&self, x: u8) -> u8
        ensures { result ≡ sbox x }
    {
        self.substitutes[usize::from(x)]
    }

    fn sub_bytes(&self, s: [u8; 16]) -> [u8; 16]
        ensures { result ≡ sub_bytes s }
    {
        // `map` hands the octets on through a buffer of its own, and takes five times as long.
        array::from_fn(|i| self.sub_byte(s[i]))
    }

    fn sub_and_shift(&self, s: [u32; 4]) -> [u8; 16]
        ensures { result ≡ shift_rows (sub_bytes (block_of s)) }
    {
        shift_rows(self.sub_bytes(block_of(s)))
    }

    fn round(&self, s: [u32; 4], k: [u8; 16]) -> [u32; 4]
        ensures { block_of result ≡ round_of (block_of s) k }
    {
        add_round_key(mix_columns(self.sub_and_shift(s)), k)
    }

    fn last_round(&self, s: [u32; 4], k: [u8; 16]) -> [u8; 16]
        ensures { result ≡ last_round (block_of s) k }
    {
        block_of(add_round_key(words_of(self.sub_and_shift(s)), k))
    }

    // SubWord(RotWord(w[i - 1])) + Rcon, of the last word of a round key.
    fn turned_word(&self, c: u8, k: [u8; 16]) -> u32
        ensures { spelled 4 result ≡ turned_word c k }
    {
        let x = self.sub_byte(k[13]);
        let y = self.sub_byte(k[14]);
        let z = self.sub_byte(k[15]);
        let v = self.sub_byte(k[12]);
        word_of(x ^ c, y, z, v)
    }

    fn next_key(&self, c: u8, k: [u8; 16]) -> [u8; 16]
        ensures { result ≡ next_key c k }
    {
        let t = self.turned_word(c, k);
        spread_word(k, t)
    }

    pub(crate) fn expand(&self, key: [u8; 16]) -> Keyed<'_>
        ensures { result.keys ≡ key_expansion key }
    {
        let mut keys = [key; 11];
        let mut k = key;
        for (i, c) in self.constants.iter().enumerate() {
            // No proof is made of a call whose result goes straight into an array that stands.
            let next = self.next_key(*c, k);
            k = next;
            keys[i + 1] = next;
        }
        Keyed { tables: self, keys }
    }
}

impl Keyed<'_> {
    pub(crate) fn encipher(&self, block: [u8; 16]) -> [u8; 16]
        ensures { result ≡ cipher self.now.keys block }
    {
        let mut s = add_round_key(words_of(block), self.keys[0]);
        for k in &self.keys[1..10] {
            let next = self.tables.round(s, *k);
            s = next;
        }
        self.tables.last_round(s, self.keys[10])
    }
}

fn shift_rows(s: [u8; 16]) -> [u8; 16]
    ensures { result ≡ shift_rows s }
{
    [
        s[0], s[5], s[10], s[15], s[4], s[9], s[14], s[3], s[8], s[13], s[2], s[7], s[12], s[1],
        s[6], s[11],
    ]
}

// A column (5.1.3): {02} of each row, {03} of the next, which is its double and itself, and the two behind.
fn mix_column(w: u32) -> u32
    ensures { spelled 4 result ≡ mixed_column (spelled 4 w) }
{
    let twice = doubled(w);
    let third = rot_word(rot_word(w));
    twice ^ rot_word(twice ^ w) ^ third ^ rot_word(third)
}

fn mix_columns(s: [u8; 16]) -> [u32; 4]
    ensures { block_of result ≡ mix_columns s }
{
    array::from_fn(|i| mix_column(word(s, i)))
}

pub(crate) fn add_blocks(a: [u8; 16], b: [u8; 16]) -> [u8; 16]
    ensures { result ≡ add_blocks a b }
{
    block_of(add_words(words_of(a), words_of(b)))
}

fn add_round_key(s: [u32; 4], k: [u8; 16]) -> [u32; 4]
    ensures { block_of result ≡ add_round_key (block_of s) k }
{
    add_words(s, words_of(k))
}

fn spread_word(k: [u8; 16], t: u32) -> [u8; 16]
    ensures { result ≡ spread k (spelled 4 t) }
{
    let a = word(k, 0) ^ t;
    let b = word(k, 1) ^ a;
    let c = word(k, 2) ^ b;
    let d = word(k, 3) ^ c;
    block_of([a, b, c, d])
}
