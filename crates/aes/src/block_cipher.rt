// Key expansion and the cipher, FIPS 197, sections 5.1 and 5.2, over any way to work out the steps of a round.
ghost use Rattle.std.specs.Prelude.{◌≡◌, ℕ, List};
ghost use Rattle.aes.specs.Cipher.{to_state, of_state, sub_bytes, shift_rows, mix_columns, add_round_key, next_key, key_expansion, cipher_under};

use super::xtime;

// AES-128, by the steps that its ciphers work out in ways of their own.
pub trait BlockCipher: Drop {
    // A block on its way through the rounds.
    type State: Copy;

    // The four rows that it stands for: section 3.4.
    ghost rows_of: { Self.State → List (List ℕ) };

    // What it looks up, to be made once a call and lent.
    fn new() -> Self;

    // The round key after k, by the round constant c.
    fn next_key(&self, k: [u8; 16], c: u8) -> [u8; 16]
        ensures { result ≡ next_key c k };

    fn to_state(block: [u8; 16]) -> Self::State
        ensures { rows_of result ≡ to_state block };

    fn of_state(s: Self::State) -> [u8; 16]
        ensures { result ≡ of_state (rows_of s) };

    fn add_round_key(s: Self::State, k: [u8; 16]) -> Self::State
        ensures { rows_of result ≡ add_round_key k (rows_of s) };

    // SubBytes and ShiftRows.
    fn substitute(&self, s: Self::State) -> Self::State
        ensures { rows_of result ≡ shift_rows (sub_bytes (rows_of s)) };

    // SubBytes, ShiftRows and MixColumns.
    fn mix(&self, s: Self::State) -> Self::State
        ensures { rows_of result ≡ mix_columns (shift_rows (sub_bytes (rows_of s))) };
}

// The eleven round keys of a key.
pub fn expand_key<C: BlockCipher>(cipher: &C, key: [u8; 16]) -> [[u8; 16]; 11]
    ensures { result ≡ key_expansion key }
{
    let mut keys = [key; 11];
    let mut c: u8 = 1;
    for i in 0..10 {
        keys[i + 1] = cipher.next_key(keys[i], c);
        c = xtime(c);
    }
    keys
}

// A block enciphered under round keys.
pub fn encrypt_block<C: BlockCipher>(cipher: &C, keys: &[[u8; 16]; 11], block: [u8; 16]) -> [u8; 16]
    ensures { result ≡ cipher_under keys.now block }
{
    let mut s = C::add_round_key(C::to_state(block), keys[0]);
    for k in &keys[1..10] {
        s = C::add_round_key(cipher.mix(s), *k);
    }
    C::of_state(C::add_round_key(cipher.substitute(s), keys[10]))
}
