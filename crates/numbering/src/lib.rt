// The opener of sealed messages for programs in other languages, over any block cipher: an answer as one number, and the context that it is given.
#![tactic(auto)]

ghost use Rattle.std.specs.Prelude.{◌≡◌};
ghost use Rattle.wire.specs.Parts.{part, part_of};
ghost use Rattle.numbering.specs.Numbering.{packed, packed_command, packed_message, packed_answer, context_of, Exported};

use access::Mode;
use aes::block_cipher::BlockCipher;
use bridge::{Context, Place, Refused};
use control::Command;
use message::Message;
use session::{Keys, NonceMemory, Session};
use units::{Minutes, Seconds};
use wire::Part;

// The low two bytes of three numbers.
fn pack(a: u64, b: u64, c: u64) -> u64
    ensures { result ≡ packed a b c }
{
    a % 65536 + (65536 * (b % 65536) + 4294967296 * (c % 65536))
}

fn packed_command(c: Command) -> u64
    ensures { result ≡ packed_command c }
{
    match c {
        Command::Setup(f) => pack(1100, f.stone as u64, f.rest.len as u64),
        Command::FactoryReset => pack(1101, 0, 0),
        Command::GetState(f) => pack(1102, f.kind as u64, f.id as u64),
        Command::SetState(f) => pack(1103, f.id as u64, f.value.len as u64),
        Command::BootloaderVersion => pack(1104, 0, 0),
        Command::UicrData => pack(1105, 0, 0),
        Command::IbeaconConfig(f) => pack(1106, f.timestamp as u64, f.interval as u64),
        Command::Reset => pack(1110, 0, 0),
        Command::GotoDfu => pack(1111, 0, 0),
        Command::NoOperation => pack(1112, 0, 0),
        Command::Disconnect => pack(1113, 0, 0),
        Command::Switch(value) => pack(1120, value as u64, 0),
        Command::MultiSwitch(f) => pack(1121, f.count as u64, f.pairs.len as u64),
        Command::RegisterTrackedDevice(f) => pack(1170, f.device as u64, f.token as u64),
        Command::TrackedDeviceHeartbeat(f) => pack(1171, f.device as u64, f.token as u64),
        Command::GetPresence => pack(1172, 0, 0),
        Command::GetUptime => pack(1180, 0, 0),
    }
}

fn packed_message(m: Message) -> u64
    ensures { result ≡ packed_message m }
{
    match m {
        Message::Hello(flags) => pack(1000, flags as u64, 0),
        Message::SessionNonce(f) => pack(1001, f.timeout.0, u64::from(f.nonce[0])),
        Message::Heartbeat(t) => pack(1002, t.0, 0),
        Message::Status(f) => pack(1003, f.kind as u64, f.flags as u64),
        Message::GetMac => pack(1004, 0, 0),
        Message::Control(c) => packed_command(c),
        Message::HubReply(f) => pack(1011, f.code as u64, f.data.len as u64),
    }
}

// A refusal's number as an answer, whatever it is: also one that no refusal has.
pub fn packed_refusal(number: u8) -> u64
    ensures { result ≡ number }
{
    u64::from(number)
}

// An answer as one number: the message's, or the refusal's.
pub fn packed_answer(a: Result<(Message, Place), Refused>) -> u64
    ensures { result ≡ packed_answer a }
{
    match a {
        Ok((m, _)) => packed_message(m),
        Err(r) => packed_refusal(r.refusal.number()),
    }
}

// The context of a message in normal mode with the admin key alone and encryption not required; the session remembers no packet nonce.
pub fn context(key: [u8; 16], nonce: [u8; 5], minutes: u64, since: u64, time: u64) -> Context
    ensures { result ≡ context_of key nonce minutes since time }
{
    Context {
        session: Session {
            held: true,
            nonce,
            timeout: Minutes(minutes),
            since: Seconds(since),
            memory: NonceMemory::empty(),
        },
        time: Seconds(time),
        keys: Keys {
            admin: Some(key),
            member: None,
            basic: None,
            setup: None,
        },
        mode: Mode::Normal,
        required: false,
    }
}

// The first bytes of a payload, opened as an encrypted message. The session after it is not handed out: each call begins with one that remembers nothing.
pub fn open<C: BlockCipher>(
    key: &[u8; 16],
    nonce: &[u8; 5],
    minutes: u64,
    since: u64,
    time: u64,
    payload: &[u8; 512],
    len: usize,
    work: &mut [u8; 496],
) -> u64
    ensures { Exported (context_of key.now nonce.now minutes since time) (part_of payload.now (part 0 len)) work.old result work.new }
{
    let given = context(*key, *nonce, minutes, since, time);
    let front = wire::part_of(payload, Part { start: 0, len });
    packed_answer(bridge::uart::open::<C>(1, 0, 128, front, given, work).answer)
}
