// Sealers: the image of an encrypted message or packet, at the front of the lent room. Their drafts judge lengths, room and key alone.
ghost use Rattle.std.specs.Prelude.{◌≡◌, ◌+◌, ◌≤◌, length, take};
ghost use Rattle.wire.specs.Writing.{placed};
ghost use Rattle.access.specs.Level.{level_number};
ghost use Rattle.session.specs.Keys.{key_bytes, key_for};
ghost use Rattle.envelope.specs.Blocks.{enveloped, outside, Seals};
ghost use Rattle.envelope.specs.Sealed.{sealed_image};
ghost use Rattle.envelope.specs.Characteristic.{characteristic_image};

use crate::Draft;
use crate::drafts::{draft_message, draft_packet, write_front};
use access::{Level, Mode};
use aes::block_cipher::BlockCipher;
use session::Keys;
use wire::Refusal;

// The encrypted wrapper payload of a message: 17, 25, 10.
pub fn seal<C: BlockCipher>(
    keys: Keys,
    mode: Mode,
    packet_nonce: [u8; 3],
    session_nonce: [u8; 5],
    message: &[u8],
    out: &mut [u8],
) -> Result<usize, Refusal>
    ensures { Seals (key_for keys mode Level.Admin) (outside 2 490 (length message.now))
        (sealed_image (key_bytes (key_for keys mode Level.Admin)) packet_nonce session_nonce message.now) out.old result out.new }
{
    let draft = draft_message(keys, mode, message, out.len())?;
    Ok(envelop::<C>(&draft, packet_nonce, session_nonce, out))
}

// The characteristic packet of a control packet: 17, 25, 10.
pub fn seal_characteristic<C: BlockCipher>(
    keys: Keys,
    mode: Mode,
    level: Level,
    packet_nonce: [u8; 3],
    session_nonce: [u8; 5],
    validation: [u8; 4],
    packet: &[u8],
    out: &mut [u8],
) -> Result<usize, Refusal>
    ensures { Seals (key_for keys mode level) (outside 5 492 (length packet.now))
        (characteristic_image (key_bytes (key_for keys mode level)) packet_nonce session_nonce (level_number level) validation packet.now) out.old result out.new }
{
    let draft = draft_packet(keys, mode, level, validation, packet, out.len())?;
    Ok(envelop::<C>(&draft, packet_nonce, session_nonce, out))
}

// A draft's front, and its blocks enciphered behind it; how many bytes they are.
fn envelop<C: BlockCipher>(
    draft: &Draft,
    packet_nonce: [u8; 3],
    session_nonce: [u8; 5],
    out: &mut [u8],
) -> usize
    requires { (draft.now.len ≤ 496) × (4 + draft.now.len ≤ length out.old) }
    ensures { (result ≡ 4 + draft.now.len) × (out.new ≡ placed 0 (enveloped draft.now.key packet_nonce session_nonce draft.now.id (take draft.now.len draft.now.text)) out.old) }
{
    let text = &draft.text[..draft.len];
    let _ = write_front(packet_nonce, draft.id, out);
    let _ = aes::ctr::apply_ctr::<C>(draft.key, packet_nonce, session_nonce, text, &mut out[4..]);
    4 + draft.len
}
