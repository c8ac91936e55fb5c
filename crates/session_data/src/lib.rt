// The session data: the block that a module hands out for a connection, read and written.
#![tactic(auto)]

ghost use Rattle.std.specs.Prelude.{◌≡◌, length, Ok};
ghost use Rattle.wire.specs.Rules.{judge};
ghost use Rattle.wire.specs.Refusals.{refusing, checked_by};
ghost use Rattle.aes.specs.Cipher.{cipher};
ghost use Rattle.aes.specs.InvCipher.{inv_cipher};
ghost use Rattle.session.specs.Session.{with_data};
ghost use Rattle.session_data.specs.SessionData.{data_key, data_text, WritesData, text_of, nonce_in, validation_in, data_text_rules, data_read_rules, ReadsData};

use access::Mode;
use session::{Connection, Keys};
use wire::Refusal;

// Whether the block is accepted, and the connection session after it.
#[derive(Clone, Copy)]
pub struct DataRead {
    pub answer: Result<(), Refusal>,
    pub connection: Connection,
}

// The key that session data is enciphered with.
fn data_key(keys: Keys, mode: Mode) -> Option<[u8; 16]>
    ensures { result ≡ data_key keys mode }
{
    match mode {
        Mode::Normal => keys.basic,
        Mode::Setup => keys.setup,
    }
}

// ---- writing

// The block before it is enciphered.
fn text(nonce: [u8; 5], validation: [u8; 4]) -> [u8; 16]
    ensures { result ≡ data_text nonce validation }
{
    [
        0xBE,
        0xBA,
        0xFE,
        0xCA,
        5,
        nonce[0],
        nonce[1],
        nonce[2],
        nonce[3],
        nonce[4],
        validation[0],
        validation[1],
        validation[2],
        validation[3],
        0,
        0,
    ]
}

// ECB: the block by itself.
fn encipher(key: [u8; 16], block: [u8; 16]) -> [u8; 16]
    ensures { result ≡ cipher key block }
{
    let keys = aes::expand_key(key);
    aes::encrypt_block(&keys, block)
}

// The block at the front of the lent room: 25, 10.
pub fn write_session_data(
    keys: Keys,
    mode: Mode,
    nonce: [u8; 5],
    validation: [u8; 4],
    out: &mut [u8],
) -> Result<usize, Refusal>
    ensures { WritesData (data_key keys mode) nonce validation out.old result out.new }
{
    if out.len() < 16 {
        return Err(Refusal::NoRoom);
    }
    let Some(key) = data_key(keys, mode) else {
        return Err(Refusal::NoKey);
    };
    wire::store(&encipher(key, text(nonce, validation)), 0, out)
}

// ---- reading

fn decipher(key: [u8; 16], block: &[u8]) -> [u8; 16]
    requires { length block.now ≡ 16 }
    ensures { result ≡ inv_cipher key block.now }
{
    let keys = aes::expand_key(key);
    let mut bytes = [0u8; 16];
    let _ = wire::store(block, 0, &mut bytes);
    aes::decrypt_block(&keys, bytes)
}

// 11, 13 and 19, of a block deciphered.
fn judge_data(text: &[u8]) -> Result<(), Refusal>
    ensures { result ≡ checked_by (data_text_rules text.now) }
{
    if wire::read_u32(text, 0) != 0xCAFEBABE {
        return Err(Refusal::ValidationDiffers);
    }
    if wire::read_u16(text, 14) != 0 {
        return Err(Refusal::PaddingNotZero);
    }
    if wire::byte_at(text, 4) != 5 {
        return Err(Refusal::UnknownProtocol);
    }
    Ok(())
}

// A block of any length, deciphered: 7, 10, 11, 13, 19.
fn text_of(keys: Keys, mode: Mode, block: &[u8]) -> Result<[u8; 16], Refusal>
    ensures { result ≡ judge refusing (data_read_rules (data_key keys mode) block.now) (Ok (text_of (data_key keys mode) block.now)) }
{
    if block.len() != 16 {
        return Err(Refusal::BadLength);
    }
    let Some(key) = data_key(keys, mode) else {
        return Err(Refusal::NoKey);
    };
    let text = decipher(key, block);
    judge_data(&text)?;
    Ok(text)
}

// The connection session that a block makes, deciphered.
fn connect(old: Connection, text: [u8; 16]) -> Connection
    ensures { result ≡ with_data old (nonce_in text) (validation_in text) }
{
    let nonce = [text[5], text[6], text[7], text[8], text[9]];
    let validation = [text[10], text[11], text[12], text[13]];
    old.with_data(nonce, validation)
}

// A block of any length: 7, 10, 11, 13, 19. A refusal leaves the old connection session.
pub fn read_session_data(keys: Keys, mode: Mode, old: Connection, block: &[u8]) -> DataRead
    ensures { ReadsData (data_key keys mode) old block.now result }
{
    match text_of(keys, mode, block) {
        Ok(text) => DataRead {
            answer: Ok(()),
            connection: connect(old, text),
        },
        Err(refusal) => DataRead {
            answer: Err(refusal),
            connection: old,
        },
    }
}
