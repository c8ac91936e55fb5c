// The state, and the steps of a round that take no box: FIPS 197, sections 3.4 and 5.1.2 to 5.1.4.
ghost use Rattle.std.specs.Prelude.{◌≡◌, ◌∷◌, [], get_or};
ghost use Rattle.aes.specs.Packed.{packed, element};
ghost use Rattle.aes.specs.Cipher.{four, to_state, of_state, shift_rows, mixed, mix_columns, add_round_key};

use super::packed::{pack, unpack, xtimes};

// A block as four rows, filled column by column.
pub fn to_state(b: [u8; 16]) -> [[u8; 4]; 4]
    ensures { result ≡ to_state b }
{
    [
        [b[0], b[4], b[8], b[12]],
        [b[1], b[5], b[9], b[13]],
        [b[2], b[6], b[10], b[14]],
        [b[3], b[7], b[11], b[15]],
    ]
}

// The block of a state.
pub fn of_state(s: [[u8; 4]; 4]) -> [u8; 16]
    ensures { result ≡ of_state s }
{
    let a = s[0];
    let b = s[1];
    let c = s[2];
    let d = s[3];
    [
        a[0], b[0], c[0], d[0], a[1], b[1], c[1], d[1], a[2], b[2], c[2], d[2], a[3], b[3], c[3],
        d[3],
    ]
}

pub fn shift_rows(s: [[u8; 4]; 4]) -> [[u8; 4]; 4]
    ensures { result ≡ shift_rows s }
{
    let a = s[0];
    let b = s[1];
    let c = s[2];
    let d = s[3];
    [
        [a[0], a[1], a[2], a[3]],
        [b[1], b[2], b[3], b[0]],
        [c[2], c[3], c[0], c[1]],
        [d[3], d[0], d[1], d[2]],
    ]
}

// Each of eight bytes of mixed columns, from the columns' bytes from there on.
fn mix(a: u64, b: u64, c: u64, d: u64) -> u64
    ensures { result ≡ packed 8 (λ i. mixed (element a i) (element b i) (element c i) (element d i)) }
{
    xtimes(a) ^ (b ^ xtimes(b)) ^ c ^ d
}

// Two rows of the mixed columns, from the rows from there on.
fn mix_rows(a: [u8; 4], b: [u8; 4], c: [u8; 4], d: [u8; 4]) -> [[u8; 4]; 2]
    ensures { result ≡ four (λ i. mixed (get_or a i 0) (get_or b i 0) (get_or c i 0) (get_or d i 0))
        ∷ four (λ i. mixed (get_or b i 0) (get_or c i 0) (get_or d i 0) (get_or a i 0)) ∷ [] }
{
    unpack(mix(pack(a, b), pack(b, c), pack(c, d), pack(d, a)))
}

pub fn mix_columns(s: [[u8; 4]; 4]) -> [[u8; 4]; 4]
    ensures { result ≡ mix_columns s }
{
    let a = s[0];
    let b = s[1];
    let c = s[2];
    let d = s[3];
    let x = mix_rows(a, b, c, d);
    let y = mix_rows(c, d, a, b);
    [x[0], x[1], y[0], y[1]]
}

pub fn add_round_key(s: [[u8; 4]; 4], k: [u8; 16]) -> [[u8; 4]; 4]
    ensures { result ≡ add_round_key k s }
{
    let a = s[0];
    let b = s[1];
    let c = s[2];
    let d = s[3];
    [
        [a[0] ^ k[0], a[1] ^ k[4], a[2] ^ k[8], a[3] ^ k[12]],
        [b[0] ^ k[1], b[1] ^ k[5], b[2] ^ k[9], b[3] ^ k[13]],
        [c[0] ^ k[2], c[1] ^ k[6], c[2] ^ k[10], c[3] ^ k[14]],
        [d[0] ^ k[3], d[1] ^ k[7], d[2] ^ k[11], d[3] ^ k[15]],
    ]
}
