// Drafts: what a sealer does beside the cipher. A draft is what the cipher is given; a caller with a cipher of its own, as in hardware, seals by it.
ghost use Rattle.std.specs.Prelude.{◌≡◌, false, ◌++◌, ◌∷◌, [], ◌+◌, ◌-◌, ◌≤◌, length, replicate};
ghost use Rattle.wire.specs.Numbers.{le};
ghost use Rattle.wire.specs.Writing.{Stores, no_room};
ghost use Rattle.access.specs.Level.{level_number};
ghost use Rattle.session.specs.Keys.{key_for};
ghost use Rattle.envelope.specs.Blocks.{outside};
ghost use Rattle.envelope.specs.Sealed.{unpadded};
ghost use Rattle.envelope.specs.Draft.{draft_of, front_bytes};

use crate::{Draft, outside};
use access::{Level, Mode};
use session::Keys;
use wire::Refusal;

// The draft of an encrypted wrapper payload, for so many bytes of room: 17, 25, 10.
pub fn draft_message(keys: Keys, mode: Mode, message: &[u8], room: usize) -> Result<Draft, Refusal>
    ensures { result ≡ draft_of (key_for keys mode Level.Admin) (outside 2 490 (length message.now)) 0 (unpadded message.now) room }
{
    let size = message.len();
    if outside(2, 490, size) {
        return Err(Refusal::BadMessageData);
    }
    let key = keys.serving(mode, Level::Admin);
    let head = header(size as u16);
    draft(key, 0, &head, message, room)
}

// The draft of a characteristic packet, for so many bytes of room: 17, 25, 10.
pub fn draft_packet(
    keys: Keys,
    mode: Mode,
    level: Level,
    validation: [u8; 4],
    packet: &[u8],
    room: usize,
) -> Result<Draft, Refusal>
    ensures { result ≡ draft_of (key_for keys mode level) (outside 5 492 (length packet.now)) (level_number level) (validation ++ packet.now) room }
{
    let size = packet.len();
    if outside(5, 492, size) {
        return Err(Refusal::BadMessageData);
    }
    let key = keys.serving(mode, level);
    let number = u8::from(level);
    draft(key, number, &validation, packet, room)
}

// The bytes in front of the blocks: packet nonce, key ID or user level; 25 where there is no room for them.
pub fn write_front(packet_nonce: [u8; 3], id: u8, out: &mut [u8]) -> Result<usize, Refusal>
    ensures { Stores (no_room 0 (front_bytes packet_nonce id) out.old ∷ []) 0 (front_bytes packet_nonce id) out.old result out.new }
{
    let front = [packet_nonce[0], packet_nonce[1], packet_nonce[2], id];
    wire::store(&front, 0, out)
}

// CAFEBABE and the message's size.
fn header(size: u16) -> [u8; 6]
    ensures { result ≡ le 4 0xCAFEBABE ++ le 2 size }
{
    let bytes = wire::u16_bytes(size);
    [0xBE, 0xBA, 0xFE, 0xCA, bytes[0], bytes[1]]
}

// A key, key ID or level, and the blocks of head, body and padding: 25, 10. Room and key are judged before the text is made.
fn draft(
    key: Option<[u8; 16]>,
    id: u8,
    head: &[u8],
    body: &[u8],
    room: usize,
) -> Result<Draft, Refusal>
    requires { length head.now + length body.now ≤ 496 }
    ensures { result ≡ draft_of key false id (head.now ++ body.now) room }
{
    let len = 16 * aes::blocks_for(head.len() + body.len());
    if room < 4 + len {
        return Err(Refusal::NoRoom);
    }
    let Some(bytes) = key else {
        return Err(Refusal::NoKey);
    };
    let text = with_zeros(head, body);
    Ok(Draft {
        key: bytes,
        id,
        len,
        text,
    })
}

// Head and body, and zero behind them.
fn with_zeros(head: &[u8], body: &[u8]) -> [u8; 496]
    requires { length head.now + length body.now ≤ 496 }
    ensures { result ≡ (head.now ++ body.now) ++ replicate (496 - (length head.now + length body.now)) 0 }
{
    let mut text = [0u8; 496];
    let at = head.len();
    let _ = wire::store(head, 0, &mut text);
    let _ = wire::store(body, at, &mut text);
    text
}
