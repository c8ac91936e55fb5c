// The state as four words, a column each, row 0 its low byte.
ghost use Rattle.std.specs.Prelude.{◌≡◌, ◌∷◌, [], get_or};
ghost use Rattle.wire.specs.Numbers.{le};
ghost use Rattle.aes.specs.Box.{sub_byte};
ghost use Rattle.aes.specs.Cipher.{four, to_state, of_state, sub_bytes, shift_rows, mix_columns, add_round_key};
ghost use Rattle.aes_table.specs.Words.{state_of, mixed_column};

use crate::Fast;
use wire::u32_bytes;

// The column of four bytes.
fn word(b: [u8; 4]) -> u32
    ensures { le 4 result ≡ four (λ i. get_or b i 0) }
{
    u32::from_le_bytes(b)
}

// A block as a state.
pub(crate) fn to_words(b: [u8; 16]) -> [u32; 4]
    ensures { state_of result ≡ to_state b }
{
    [
        word([b[0], b[1], b[2], b[3]]),
        word([b[4], b[5], b[6], b[7]]),
        word([b[8], b[9], b[10], b[11]]),
        word([b[12], b[13], b[14], b[15]]),
    ]
}

// The block of a state.
pub(crate) fn of_words(s: [u32; 4]) -> [u8; 16]
    ensures { result ≡ of_state (state_of s) }
{
    let a = u32_bytes(s[0]);
    let b = u32_bytes(s[1]);
    let c = u32_bytes(s[2]);
    let d = u32_bytes(s[3]);
    [
        a[0], a[1], a[2], a[3], b[0], b[1], b[2], b[3], c[0], c[1], c[2], c[3], d[0], d[1], d[2],
        d[3],
    ]
}

pub(crate) fn add_round_key(s: [u32; 4], k: [u8; 16]) -> [u32; 4]
    ensures { state_of result ≡ add_round_key k (state_of s) }
{
    let w = to_words(k);
    [s[0] ^ w[0], s[1] ^ w[1], s[2] ^ w[2], s[3] ^ w[3]]
}

impl Fast {
    // A column of a round before its round key, from the bytes that ShiftRows brings there.
    fn mixed_column(&self, a: u8, b: u8, c: u8, d: u8) -> u32
        ensures { le 4 result ≡ mixed_column (sub_byte a) (sub_byte b) (sub_byte c) (sub_byte d) }
    {
        self.entry(a)
            ^ self.entry(b).rotate_left(8)
            ^ self.entry(c).rotate_left(16)
            ^ self.entry(d).rotate_left(24)
    }

    // The column of four bytes, each substituted.
    pub(crate) fn sub_word(&self, a: u8, b: u8, c: u8, d: u8) -> u32
        ensures { le 4 result ≡ sub_byte a ∷ sub_byte b ∷ sub_byte c ∷ sub_byte d ∷ [] }
    {
        word([
            self.sub_byte(a),
            self.sub_byte(b),
            self.sub_byte(c),
            self.sub_byte(d),
        ])
    }

    // SubBytes, ShiftRows and MixColumns.
    pub(crate) fn mix_words(&self, s: [u32; 4]) -> [u32; 4]
        ensures { state_of result ≡ mix_columns (shift_rows (sub_bytes (state_of s))) }
    {
        let a = u32_bytes(s[0]);
        let b = u32_bytes(s[1]);
        let c = u32_bytes(s[2]);
        let d = u32_bytes(s[3]);
        [
            self.mixed_column(a[0], b[1], c[2], d[3]),
            self.mixed_column(b[0], c[1], d[2], a[3]),
            self.mixed_column(c[0], d[1], a[2], b[3]),
            self.mixed_column(d[0], a[1], b[2], c[3]),
        ]
    }

    // SubBytes and ShiftRows.
    pub(crate) fn substitute_words(&self, s: [u32; 4]) -> [u32; 4]
        ensures { state_of result ≡ shift_rows (sub_bytes (state_of s)) }
    {
        let a = u32_bytes(s[0]);
        let b = u32_bytes(s[1]);
        let c = u32_bytes(s[2]);
        let d = u32_bytes(s[3]);
        [
            self.sub_word(a[0], b[1], c[2], d[3]),
            self.sub_word(b[0], c[1], d[2], a[3]),
            self.sub_word(c[0], d[1], a[2], b[3]),
            self.sub_word(d[0], a[1], b[2], c[3]),
        ]
    }
}
