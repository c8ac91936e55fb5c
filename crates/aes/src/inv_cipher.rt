// The inverse cipher: FIPS 197, section 5.3.
ghost use Rattle.std.specs.Prelude.{◌≡◌};
ghost use Rattle.aes.specs.Box.{inv_affine, inv_sub_byte};
ghost use Rattle.aes.specs.Packed.{each};
ghost use Rattle.aes.specs.InvCipher.{inv_shift_rows, inv_sub_bytes, inv_mix_columns, inv_cipher_under};

use super::boxes::{self, Substitution};
use super::packed::{inverses, times_x};
use super::steps::{add_round_key, mix_columns, of_state, to_state};

pub fn inv_shift_rows(s: [[u8; 4]; 4]) -> [[u8; 4]; 4]
    ensures { result ≡ inv_shift_rows s }
{
    let a = s[0];
    let b = s[1];
    let c = s[2];
    let d = s[3];
    [
        [a[0], a[1], a[2], a[3]],
        [b[3], b[0], b[1], b[2]],
        [c[2], c[3], c[0], c[1]],
        [d[1], d[2], d[3], d[0]],
    ]
}

// The affine step undone in each of eight bytes.
fn inv_affines(w: u64) -> u64
    ensures { result ≡ each inv_affine w }
{
    let w1 = times_x(w, 1);
    let w2 = times_x(w1, 1);
    let w3 = times_x(w2, 1);
    let w4 = times_x(w3, 1);
    let w5 = times_x(w4, 1);
    let w6 = times_x(w5, 1);
    w6 ^ w3 ^ w1 ^ 0x0505_0505_0505_0505
}

struct InvSubBytes;

// The affine step undone, and then the inverse in the field.
impl Substitution for InvSubBytes {
    ghost image = { inv_sub_byte };

    fn eight(w: u64) -> u64 {
        inverses(inv_affines(w))
    }
}

// The substitution of a byte back, section 5.3.2.
pub fn inv_sub_byte(b: u8) -> u8
    ensures { result ≡ inv_sub_byte b }
{
    boxes::byte::<InvSubBytes>(b)
}

pub fn inv_sub_bytes(s: [[u8; 4]; 4]) -> [[u8; 4]; 4]
    ensures { result ≡ inv_sub_bytes s }
{
    boxes::state::<InvSubBytes>(s)
}

// MixColumns four times changes nothing, so three times undo it once.
pub fn inv_mix_columns(s: [[u8; 4]; 4]) -> [[u8; 4]; 4]
    ensures { result ≡ inv_mix_columns s }
{
    mix_columns(mix_columns(mix_columns(s)))
}

// A block deciphered under round keys.
pub fn decrypt_block(keys: &[[u8; 16]; 11], block: [u8; 16]) -> [u8; 16]
    ensures { result ≡ inv_cipher_under keys.now block }
{
    let mut s = add_round_key(to_state(block), keys[10]);
    for i in (1..10).rev() {
        s = inv_mix_columns(add_round_key(inv_sub_bytes(inv_shift_rows(s)), keys[i]));
    }
    of_state(add_round_key(inv_sub_bytes(inv_shift_rows(s)), keys[0]))
}
