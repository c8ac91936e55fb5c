// Blocks deciphered into a work buffer and judged. Each judge gives the refusal of the first rule that is broken.
ghost use Rattle.std.specs.Prelude.{◌≡◌, ◌↔◌, ◌∷◌, [], ◌≤◌, take, drop, IsTrue, All};
ghost use Rattle.wire.specs.Refusals.{checked_by};
ghost use Rattle.wire.specs.Same.{same_bytes};
ghost use Rattle.wire.specs.Writing.{Stores, no_room};
ghost use Rattle.envelope.specs.Blocks.{blocks_in, deciphered, length_rule, room_rule, nonce_bytes, nonce_number, nonce_rule, not_least, cleared};
ghost use Rattle.envelope.specs.Sealed.{message_size, message_misfit, late_rules, message_in};
ghost use Rattle.envelope.specs.Characteristic.{packet_size, packet_misfit, all_zero, characteristic_rules, packet_in};

use crate::outside;
use aes::block_cipher::BlockCipher;
use session::NonceMemory;
use wire::{Part, Refusal};

// 7, of an encrypted wrapper payload or a characteristic packet.
pub fn judge_length(payload: &[u8]) -> Result<(), Refusal>
    ensures { result ≡ checked_by (length_rule payload.now ∷ []) }
{
    let n = blocks_in(payload);
    if outside(1, 31, n) || payload.len() != 4 + 16 * n {
        return Err(Refusal::BadLength);
    }
    Ok(())
}

// n: how many blocks a payload holds.
pub fn blocks_in(payload: &[u8]) -> usize
    ensures { result ≡ blocks_in payload.now }
{
    payload.len().saturating_sub(4) / 16
}

// 25, for a work buffer of so many bytes.
pub fn judge_room(payload: &[u8], room: usize) -> Result<(), Refusal>
    ensures { result ≡ checked_by (room_rule payload.now room ∷ []) }
{
    if room < 16 * blocks_in(payload) {
        return Err(Refusal::NoRoom);
    }
    Ok(())
}

// The number of the packet nonce.
pub fn nonce_number(payload: &[u8]) -> u32
    ensures { result ≡ nonce_number payload.now }
{
    wire::read_u24(payload, 0)
}

// 28, by the packet nonces that are remembered.
pub fn judge_nonce(memory: NonceMemory, payload: &[u8]) -> Result<(), Refusal>
    ensures { result ≡ checked_by (nonce_rule memory payload.now ∷ []) }
{
    if memory.holds(nonce_number(payload)) {
        return Err(Refusal::NonceUsed);
    }
    Ok(())
}

// The payload's blocks deciphered, at the front of the work buffer; 25 where they do not fit.
pub fn decipher<C: BlockCipher>(
    key: [u8; 16],
    nonce: [u8; 5],
    payload: &[u8],
    work: &mut [u8],
) -> Result<usize, Refusal>
    ensures { Stores (no_room 0 (deciphered key nonce payload.now) work.old ∷ []) 0
        (deciphered key nonce payload.now) work.old result work.new }
{
    if payload.len() < 4 {
        return Ok(0);
    }
    let packet_nonce = [payload[0], payload[1], payload[2]];
    aes::ctr::apply_ctr::<C>(key, packet_nonce, nonce, &payload[4..], work)
}

// The bytes of the packet nonce; one past the end counts as 0.
pub fn packet_nonce(payload: &[u8]) -> [u8; 3]
    ensures { result ≡ nonce_bytes payload.now }
{
    [
        wire::byte_at(payload, 0),
        wire::byte_at(payload, 1),
        wire::byte_at(payload, 2),
    ]
}

// The blocks, which stand behind the packet nonce and the key ID or user level.
pub fn blocks(payload: &[u8]) -> &[u8]
    ensures { result.now ≡ drop 4 payload.now }
{
    if payload.len() < 4 {
        return &payload[0..0];
    }
    &payload[4..]
}

// 11 and 12, of the blocks of an encrypted UART message. Any padding is accepted.
pub fn judge_text(text: &[u8]) -> Result<(), Refusal>
    ensures { result ≡ checked_by (late_rules text.now) }
{
    if wire::read_u32(text, 0) != 0xCAFEBABE {
        return Err(Refusal::ValidationDiffers);
    }
    if message_misfit(text) {
        return Err(Refusal::BadMessageSize);
    }
    Ok(())
}

// Whether 12 applies: the message size is below 2, or the blocks are not the least number that holds the message.
fn message_misfit(text: &[u8]) -> bool
    ensures { result ≡ message_misfit text.now }
{
    let size = message_size(text);
    if size < 2 {
        return true;
    }
    not_least(text, 6 + size)
}

// The message's length by its size field.
fn message_size(text: &[u8]) -> usize
    ensures { (result ≡ message_size text.now) × (result ≤ 65535) }
{
    wire::read_u16(text, 4) as usize
}

// 11, 18 and 13, of the blocks of a characteristic packet.
pub fn judge_characteristic(validation: [u8; 4], text: &[u8]) -> Result<(), Refusal>
    ensures { result ≡ checked_by (characteristic_rules validation text.now) }
{
    if !starts_with(text, validation) {
        return Err(Refusal::ValidationDiffers);
    }
    if packet_misfit(text) {
        return Err(Refusal::BadPacketLength);
    }
    if !all_zero(text, 4 + packet_size(text)) {
        return Err(Refusal::PaddingNotZero);
    }
    Ok(())
}

// Whether 18 applies: the blocks are not the least number that holds the packet.
fn packet_misfit(text: &[u8]) -> bool
    ensures { result ≡ packet_misfit text.now }
{
    not_least(text, 4 + packet_size(text))
}

// The packet's length by its own size field.
fn packet_size(text: &[u8]) -> usize
    ensures { (result ≡ packet_size text.now) × (result ≤ 65540) }
{
    5 + (wire::read_u16(text, 7) as usize)
}

// Whether the first four bytes are these, by `same_bytes`, in which the rule is stated.
fn starts_with(text: &[u8], front: [u8; 4]) -> bool
    ensures { result ≡ same_bytes (take 4 text.now) front }
{
    if text.len() < 4 {
        return false;
    }
    wire::same_bytes(&text[0..4], &front)
}

// Whether the blocks are not the least number that holds so many bytes.
fn not_least(text: &[u8], size: usize) -> bool
    requires { size ≤ 70000 }
    ensures { result ≡ not_least text.now size }
{
    text.len() != 16 * aes::blocks_for(size)
}

// Whether the bytes from a place on are zero.
fn all_zero(text: &[u8], from: usize) -> bool
    ensures { result ≡ all_zero (drop from text.now) }
{
    zeros(&text[from.min(text.len())..])
}

fn zeros(bytes: &[u8]) -> bool
    ensures { IsTrue result ↔ All (λ b. b ≡ 0) bytes.now }
{
    bytes.iter().all(|b| *b == 0)
}

// The message in the blocks of an encrypted UART message, empty where 12 applies.
pub fn message_in(text: &[u8]) -> &[u8]
    ensures { result.now ≡ message_in text.now }
{
    if message_misfit(text) {
        return &text[0..0];
    }
    wire::part_of(
        text,
        Part {
            start: 6,
            len: message_size(text),
        },
    )
}

// The control packet in the blocks of a characteristic packet, empty where 18 applies.
pub fn packet_in(text: &[u8]) -> &[u8]
    ensures { result.now ≡ packet_in text.now }
{
    if packet_misfit(text) {
        return &text[0..0];
    }
    wire::part_of(
        text,
        Part {
            start: 4,
            len: packet_size(text),
        },
    )
}

// The first n bytes become zero, or as many as there are.
pub fn clear(work: &mut [u8], n: usize)
    ensures { work.new ≡ cleared n work.old }
{
    let end = n.min(work.len());
    work[..end].fill(0);
}
