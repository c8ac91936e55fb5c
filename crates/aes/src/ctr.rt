// Counter mode, document 01, 'Cipher and session': the same function seals and opens.
ghost use Rattle.std.specs.Prelude.{◌≡◌, ◌∷◌, [], drop};
ghost use Rattle.std.proofs.lemmas.List.Edits.{sets};
ghost use Rattle.wire.specs.Writing.{Stores, no_room};
ghost use Rattle.aes.specs.Ctr.{xors, counter_block, blocks_for, ctr_of};

use super::block_cipher::{BlockCipher, encrypt_block, expand_key};
use wire::{Refusal, count_from};

// Packet nonce, session nonce, and the counter, high byte first.
pub fn counter_block(pn: [u8; 3], sn: [u8; 5], i: usize) -> [u8; 16]
    ensures { result ≡ counter_block pn sn i }
{
    let c = (i as u64).to_be_bytes();
    [
        pn[0], pn[1], pn[2], sn[0], sn[1], sn[2], sn[3], sn[4], c[0], c[1], c[2], c[3], c[4], c[5],
        c[6], c[7],
    ]
}

// The bytes from a place on, as far as they, the block and the room reach, summed with the block.
pub fn xor_block(block: [u8; 16], src: &[u8], at: usize, out: &mut [u8])
    ensures { out.new ≡ sets out.old at (xors (drop at src.now) block) }
{
    let n = count_from(src.len(), at).min(count_from(out.len(), at));
    for j in 0..n.min(16) {
        out[at + j] = src[at + j] ^ block[j];
    }
}

// The blocks that n bytes need.
pub fn blocks_for(n: usize) -> usize
    ensures { result ≡ blocks_for n }
{
    n.div_ceil(16)
}

// The bytes of src, enciphered or deciphered, at the front of out; 25 where out is shorter. Cipher and round keys are made once a call.
pub fn apply_ctr<C: BlockCipher>(
    key: [u8; 16],
    packet_nonce: [u8; 3],
    session_nonce: [u8; 5],
    src: &[u8],
    out: &mut [u8],
) -> Result<usize, Refusal>
    ensures { Stores (no_room 0 (ctr_of key packet_nonce session_nonce src.now) out.old ∷ []) 0
        (ctr_of key packet_nonce session_nonce src.now) out.old result out.new }
{
    if out.len() < src.len() {
        return Err(Refusal::NoRoom);
    }
    let cipher = C::new();
    let keys = expand_key(&cipher, key);
    let blocks = blocks_for(src.len());
    for i in 0..blocks {
        let counter = counter_block(packet_nonce, session_nonce, i);
        xor_block(encrypt_block(&cipher, &keys, counter), src, 16 * i, out);
    }
    Ok(src.len())
}
