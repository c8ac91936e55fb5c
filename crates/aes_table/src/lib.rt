// AES-128 by a table of words: the cipher of the faster build. Its functions keep the promises that those of `aes`, the cipher of the small build, keep under
// the same names. The state is four words, a column each (words); a round looks up one entry of the table for each byte (table).
#![tactic(auto)]

mod table;
mod words;

ghost use Rattle.std.specs.Prelude.{◌≡◌, ◌∷◌, []};
ghost use Rattle.wire.specs.Writing.{Stores, no_room};
ghost use Rattle.aes.specs.Cipher.{key_expansion, cipher_under};
ghost use Rattle.aes.specs.Ctr.{ctr_of};
ghost use Rattle.aes_table.specs.Words.{state_of};

use aes::block_cipher::{self, BlockCipher};
pub use table::Fast;
use wire::Refusal;
use words::{add_round_key, of_words, to_words};

impl BlockCipher for Fast {
    type State = [u32; 4];

    ghost rows_of = { state_of };

    fn new() -> Fast {
        Fast::with_table()
    }

    fn next_key(&self, k: [u8; 16], c: u8) -> [u8; 16] {
        let k0 = to_words(k);
        let w0 = k0[0] ^ (c as u32) ^ self.sub_word(k[13], k[14], k[15], k[12]);
        let w1 = k0[1] ^ w0;
        let w2 = k0[2] ^ w1;
        of_words([w0, w1, w2, k0[3] ^ w2])
    }

    fn to_state(block: [u8; 16]) -> [u32; 4] {
        to_words(block)
    }

    fn of_state(s: [u32; 4]) -> [u8; 16] {
        of_words(s)
    }

    fn add_round_key(s: [u32; 4], k: [u8; 16]) -> [u32; 4] {
        add_round_key(s, k)
    }

    fn substitute(&self, s: [u32; 4]) -> [u32; 4] {
        self.substitute_words(s)
    }

    fn mix(&self, s: [u32; 4]) -> [u32; 4] {
        self.mix_words(s)
    }
}

// ---- by name for callers of this cipher alone: public promises, those of `aes`

// The eleven round keys of a key.
pub fn expand_key(key: [u8; 16]) -> [[u8; 16]; 11]
    ensures { result ≡ key_expansion key }
{
    block_cipher::expand_key(&Fast::new(), key)
}

// A block enciphered under round keys.
pub fn encrypt_block(keys: &[[u8; 16]; 11], block: [u8; 16]) -> [u8; 16]
    ensures { result ≡ cipher_under keys.now block }
{
    block_cipher::encrypt_block(&Fast::new(), keys, block)
}

// The bytes of src, enciphered or deciphered, at the front of out; 25 where out is shorter.
pub fn apply_ctr(
    key: [u8; 16],
    packet_nonce: [u8; 3],
    session_nonce: [u8; 5],
    src: &[u8],
    out: &mut [u8],
) -> Result<usize, Refusal>
    ensures { Stores (no_room 0 (ctr_of key packet_nonce session_nonce src.now) out.old ∷ []) 0
        (ctr_of key packet_nonce session_nonce src.now) out.old result out.new }
{
    aes::ctr::apply_ctr::<Fast>(key, packet_nonce, session_nonce, src, out)
}
