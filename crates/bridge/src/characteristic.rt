// The opener of characteristic packets.
ghost use Rattle.std.specs.Prelude.{◌≡◌, Ok, Err, ◌++◌, ◌+◌, ◌*◌, ◌≤◌, length, get_or, drop};
ghost use Rattle.wire.specs.Rules.{first_broken, judge};
ghost use Rattle.wire.specs.Refusals.{refusing, checked_by};
ghost use Rattle.session.specs.Keys.{key_bytes};
ghost use Rattle.access.specs.Level.{level_of};
ghost use Rattle.envelope.specs.Blocks.{blocks_in, nonce_number};
ghost use Rattle.envelope.specs.Characteristic.{characteristic_rules};
ghost use Rattle.bridge.specs.Characteristic as specs;
ghost use Rattle.bridge.specs.Opening as opening;
ghost use Rattle.bridge.specs.Reply.{characteristic_refused};

use crate::blocks::{clear_refused, judge_blocks};
use crate::replies::characteristic_refused;
use crate::{Link, OpenedCommand, Place, Refused};
use access::{Access, Level};
use aes::block_cipher::BlockCipher;
use control::Command;
use wire::{Part, Refusal};

// The key of the level that a packet names, where it is held.
pub fn key(link: Link, packet: &[u8]) -> Option<[u8; 16]>
    ensures { result ≡ specs.level_key link packet.now }
{
    link.keys
        .serving_number(link.mode, wire::byte_at(packet, 3))
}

// The key of the level that a packet names, or 10, 8 and 28.
fn connection_key(link: Link, packet: &[u8]) -> Result<[u8; 16], Refusal>
    ensures { result ≡ judge refusing (specs.connection_rules link packet.now) (Ok (key_bytes (specs.level_key link packet.now))) }
{
    let Some(key) = key(link, packet) else {
        return Err(Refusal::NoKey);
    };
    if !link.connection.is_there() {
        return Err(Refusal::NoSession);
    }
    envelope::judge_nonce(link.connection.memory, packet)?;
    Ok(key)
}

// The key of a packet's level, or what is refused of the packet before it is deciphered: 7, 25, 10, 8, 28.
fn admitted(packet: &[u8], room: usize, link: Link) -> Result<[u8; 16], Refusal>
    ensures { result ≡ judge refusing (specs.packet_entry_rules link room packet.now) (Ok (key_bytes (specs.level_key link packet.now))) }
{
    judge_blocks(packet, room)?;
    connection_key(link, packet)
}

// What is refused of a packet before the cipher runs: 7, 25, 10, 8, 28.
pub fn judge(packet: &[u8], room: usize, link: Link) -> Result<(), Refusal>
    ensures { result ≡ checked_by (specs.packet_entry_rules link room packet.now) }
{
    admitted(packet, room, link)?;
    Ok(())
}

// A level's access.
fn access_for(level: u8) -> Access
    ensures { result ≡ specs.access_for (level_of level) }
{
    match Level::try_from(level) {
        Ok(l) => Access::Keyed(l),
        Err(_) => Access::Unknown,
    }
}

// The answer by what a packet was read as, and where it ends.
fn answer_by(end: usize, read: Result<Command, Refusal>) -> Result<(Command, Place), Refused>
    requires { 9 ≤ end }
    ensures { result ≡ opening.command_answer_by end read }
{
    match read {
        Ok(c) => {
            let part = Part {
                start: 9,
                len: end - 9,
            };
            Ok((c, Place::Work(part)))
        }
        Err(refusal) => Err(characteristic_refused(refusal)),
    }
}

// Where a packet ends that stands behind the validation key.
fn end_of(packet: &[u8]) -> usize
    requires { 4 + length packet.now ≤ 18446744073709551615 }
    ensures { result ≡ 4 + length packet.now }
{
    4 + packet.len()
}

// A refusal that leaves the connection session as it was.
pub fn refused(refusal: Refusal, link: Link) -> OpenedCommand
    ensures { result ≡ record { answer = Err (characteristic_refused refusal); connection = link.connection } }
{
    OpenedCommand {
        answer: Err(characteristic_refused(refusal)),
        connection: link.connection,
    }
}

// The packet in a text that gives none of 11, 18 and 13: 19 to 24, or the command; and the connection session after it.
fn read_packet(text: &[u8], level: u8, link: Link, number: u32) -> OpenedCommand
    requires { first_broken (characteristic_rules link.connection.validation text.now) ≡ 0 }
    ensures { result ≡ opening.command_text_opened link level number text.now }
{
    let packet = envelope::packet_in(text);
    let read = control::read_control(packet, link.mode, access_for(level));
    OpenedCommand {
        answer: answer_by(end_of(packet), read),
        connection: link.connection.remember(number),
    }
}

// What a packet deciphered to: 11, 18, 13, 19 to 24, or the command; and the connection session after it, which remembers the number of its packet nonce
// unless 11, 18 or 13 is given.
fn read_text(text: &[u8], level: u8, link: Link, number: u32) -> OpenedCommand
    ensures { result ≡ opening.command_text_opened link level number text.now }
{
    let validation = link.connection.validation;
    match envelope::judge_characteristic(validation, text) {
        Ok(()) => read_packet(text, level, link, number),
        Err(refusal) => refused(refusal, link),
    }
}

// A packet whose blocks were deciphered into the work buffer: 11, 18, 13, 19 to 24, or the command and where its payload lies; and the connection session
// after it. A refusal leaves the blocks zero.
pub fn settle(packet: &[u8], link: Link, work: &mut [u8]) -> OpenedCommand
    ensures { (result ≡ opening.command_text_opened link (get_or packet.now 3 0) (nonce_number packet.now) (opening.text_in packet.now work.old))
        × (work.new ≡ opening.work_by (16 * blocks_in packet.now) work.old result.answer) }
{
    let n = 16 * envelope::blocks_in(packet);
    let blocks = wire::part_of(work, Part { start: 0, len: n });
    let level = wire::byte_at(packet, 3);
    let opened = read_text(blocks, level, link, envelope::nonce_number(packet));
    clear_refused(&opened.answer, work, n);
    opened
}

// The blocks of a packet into the work buffer, which has room for them.
fn decipher<C: BlockCipher>(key: [u8; 16], packet: &[u8], link: Link, work: &mut [u8])
    requires entered { first_broken (specs.packet_entry_rules link (length work.old) packet.now) ≡ 0 }
    requires held { key ≡ key_bytes (specs.level_key link packet.now) }
    ensures { work.new ≡ specs.packet_text link packet.now ++ drop (16 * blocks_in packet.now) work.old }
{
    let _ = envelope::decipher::<C>(key, link.connection.nonce, packet, work);
}

// A packet that has passed what is asked of it before it is deciphered.
fn open_admitted<C: BlockCipher>(
    key: [u8; 16],
    packet: &[u8],
    link: Link,
    work: &mut [u8],
) -> OpenedCommand
    requires entered { first_broken (specs.packet_entry_rules link (length work.old) packet.now) ≡ 0 }
    requires held { key ≡ key_bytes (specs.level_key link packet.now) }
    ensures { specs.OpensPacket link packet.now work.old result work.new }
{
    decipher::<C>(key, packet, link, work);
    settle(packet, link, work)
}

// Opens a characteristic packet: the command and where its payload lies, or the refusal with its reply; and the connection session after it.
pub fn open<C: BlockCipher>(packet: &[u8], link: Link, work: &mut [u8]) -> OpenedCommand
    ensures { specs.OpensPacket link packet.now work.old result work.new }
{
    match admitted(packet, work.len(), link) {
        Ok(key) => open_admitted::<C>(key, packet, link, work),
        Err(refusal) => refused(refusal, link),
    }
}
