// AES-128 as FIPS 197 defines it.
//
// There is no table: the substitution of a byte is worked out, and so is the substitution back (inv_cipher). SubBytes, MixColumns and
// their inverses take eight bytes of a state at a time (packed).
#![tactic(auto)]

pub mod block_cipher;
mod boxes;
pub mod ctr;
mod inv_cipher;
mod packed;
mod steps;

ghost use Rattle.std.specs.Prelude.{◌≡◌, ◌∷◌, []};
ghost use Rattle.wire.specs.Writing.{Stores, no_room};
ghost use Rattle.aes.specs.Box.{affine, sub_byte};
ghost use Rattle.aes.specs.Packed.{each};
ghost use Rattle.aes.specs.Cipher.{sub_bytes, sub_word, chained, next_key, key_expansion, cipher_under};
ghost use Rattle.aes.specs.Ctr.{ctr_of};

use block_cipher::BlockCipher;
use boxes::Substitution;
pub use ctr::{blocks_for, counter_block, xor_block};
pub use inv_cipher::{decrypt_block, inv_mix_columns, inv_shift_rows, inv_sub_byte, inv_sub_bytes};
pub use packed::xtime;
use packed::{inverses, times_x};
pub use steps::{add_round_key, mix_columns, of_state, shift_rows, to_state};
use wire::Refusal;

// The affine step of each of eight bytes. Times x modulo x^8 + 1 turns a byte's digits one place to the left.
fn affines(w: u64) -> u64
    ensures { result ≡ each affine w }
{
    let w1 = times_x(w, 1);
    let w2 = times_x(w1, 1);
    let w3 = times_x(w2, 1);
    let w4 = times_x(w3, 1);
    w ^ w4 ^ w3 ^ w2 ^ w1 ^ 0x6363_6363_6363_6363
}

struct SubBytes;

// The inverse in the field, and then the affine step.
impl Substitution for SubBytes {
    ghost image = { sub_byte };

    fn eight(w: u64) -> u64 {
        affines(inverses(w))
    }
}

// The substitution of a byte, section 5.1.1.
pub fn sub_byte(b: u8) -> u8
    ensures { result ≡ sub_byte b }
{
    boxes::byte::<SubBytes>(b)
}

pub fn sub_bytes(s: [[u8; 4]; 4]) -> [[u8; 4]; 4]
    ensures { result ≡ sub_bytes s }
{
    boxes::state::<SubBytes>(s)
}

// ---- section 5.2: key expansion

fn sub_word(a: [u8; 4]) -> [u8; 4]
    ensures { result ≡ sub_word a }
{
    let x = boxes::two_rows::<SubBytes>(a, [0; 4]);
    x[0]
}

fn chain(k: [u8; 16], t: [u8; 4]) -> [u8; 16]
    ensures { result ≡ chained k t }
{
    let a0 = k[0] ^ t[0];
    let a1 = k[1] ^ t[1];
    let a2 = k[2] ^ t[2];
    let a3 = k[3] ^ t[3];
    let b0 = k[4] ^ a0;
    let b1 = k[5] ^ a1;
    let b2 = k[6] ^ a2;
    let b3 = k[7] ^ a3;
    let c0 = k[8] ^ b0;
    let c1 = k[9] ^ b1;
    let c2 = k[10] ^ b2;
    let c3 = k[11] ^ b3;
    [
        a0,
        a1,
        a2,
        a3,
        b0,
        b1,
        b2,
        b3,
        c0,
        c1,
        c2,
        c3,
        k[12] ^ c0,
        k[13] ^ c1,
        k[14] ^ c2,
        k[15] ^ c3,
    ]
}

// The round key after k, by the round constant c.
fn next_key(k: [u8; 16], c: u8) -> [u8; 16]
    ensures { result ≡ next_key c k }
{
    let w = sub_word([k[13], k[14], k[15], k[12]]);
    chain(k, [c ^ w[0], w[1], w[2], w[3]])
}

// ---- the cipher of the small build

#[derive(Clone, Copy)]
pub struct Small;

impl BlockCipher for Small {
    type State = [[u8; 4]; 4];

    ghost rows_of = { λ s. s };

    fn new() -> Small {
        Small
    }

    fn next_key(&self, k: [u8; 16], c: u8) -> [u8; 16] {
        next_key(k, c)
    }

    fn to_state(block: [u8; 16]) -> [[u8; 4]; 4] {
        to_state(block)
    }

    fn of_state(s: [[u8; 4]; 4]) -> [u8; 16] {
        of_state(s)
    }

    fn add_round_key(s: [[u8; 4]; 4], k: [u8; 16]) -> [[u8; 4]; 4] {
        add_round_key(s, k)
    }

    fn substitute(&self, s: [[u8; 4]; 4]) -> [[u8; 4]; 4] {
        shift_rows(sub_bytes(s))
    }

    fn mix(&self, s: [[u8; 4]; 4]) -> [[u8; 4]; 4] {
        mix_columns(shift_rows(sub_bytes(s)))
    }
}

// ---- by name for callers of this cipher alone: public promises, which `aes_table` keeps under the same names for its own

// The eleven round keys of a key.
pub fn expand_key(key: [u8; 16]) -> [[u8; 16]; 11]
    ensures { result ≡ key_expansion key }
{
    block_cipher::expand_key(&Small, key)
}

// A block enciphered under round keys.
pub fn encrypt_block(keys: &[[u8; 16]; 11], block: [u8; 16]) -> [u8; 16]
    ensures { result ≡ cipher_under keys.now block }
{
    block_cipher::encrypt_block(&Small, keys, block)
}

// The bytes of src, enciphered or deciphered, at the front of out; 25 where out is shorter.
pub fn apply_ctr(
    key: [u8; 16],
    packet_nonce: [u8; 3],
    session_nonce: [u8; 5],
    src: &[u8],
    out: &mut [u8],
) -> Result<usize, Refusal>
    ensures { Stores (no_room 0 (ctr_of key packet_nonce session_nonce src.now) out.old ∷ []) 0
        (ctr_of key packet_nonce session_nonce src.now) out.old result out.new }
{
    ctr::apply_ctr::<Small>(key, packet_nonce, session_nonce, src, out)
}
