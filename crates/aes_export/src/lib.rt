// The crate `aes` for programs in other languages.
#![tactic(auto)]

ghost use Rattle.std.specs.Prelude.{◌≡◌};
ghost use Rattle.aes.specs.Cipher.{key_expansion, cipher_under};
ghost use Rattle.aes.specs.Ctr.{ctr_of};

#[unsafe(no_mangle)]
pub extern "C" fn cloudgraze_aes_expand_key(key: &[u8; 16], keys: &mut [[u8; 16]; 11])
    ensures { keys.new ≡ key_expansion key.now }
{
    *keys = aes::expand_key(*key);
}

#[unsafe(no_mangle)]
pub extern "C" fn cloudgraze_aes_encrypt_block(keys: &[[u8; 16]; 11], block: &mut [u8; 16])
    ensures { block.new ≡ cipher_under keys.now block.old }
{
    *block = aes::encrypt_block(keys, *block);
}

// Counter mode over 31 blocks, the most that a message has.
#[unsafe(no_mangle)]
pub extern "C" fn cloudgraze_apply_ctr(
    key: &[u8; 16],
    packet_nonce: &[u8; 3],
    session_nonce: &[u8; 5],
    src: &[u8; 496],
    out: &mut [u8; 496],
)
    ensures { out.new ≡ ctr_of key.now packet_nonce.now session_nonce.now src.now }
{
    let _ = aes::apply_ctr(*key, *packet_nonce, *session_nonce, src, out);
}
