// The writers. A case gives the numbers and the parts as a content's text has them, but an RSSI offset signed and in its byte's place, a mask of rooms in base
// 16, high digit first, and a control message's command behind a colon; the bytes lent; the length of the room, and of a long one the place to look at: 8
// bytes before the image's end.
use console::front;
use control::{
    Command, DeviceHeartbeatFields, GetStateFields, IbeaconFields, MultiSwitchFields,
    SetStateFields, SetupFields, TrackedDeviceFields,
};
use message::{HubReplyFields, Message, SessionNonceFields, StatusFields};
use result::{PresenceResult, ResultPacket, UptimeResult};
use text::reading;
use units::{Minutes, Seconds};
use wire::{Part, Refusal};

fn number(v: &[u8], k: usize) -> u64 {
    reading::number(reading::field(v, b' ', k))
}

fn byte(v: &[u8], k: usize) -> u8 {
    (number(v, k) % 256) as u8
}

fn short(v: &[u8], k: usize) -> u16 {
    (number(v, k) % 65536) as u16
}

fn long(v: &[u8], k: usize) -> u32 {
    (number(v, k) % 4294967296) as u32
}

// From -128 to 127. Not by wire::signed_of, whose inverse the writers use.
fn signed(v: &[u8], k: usize) -> i8 {
    let s = reading::field(v, b' ', k);
    if wire::byte_at(s, 0) != b'-' {
        return (reading::number(s) % 128) as i8;
    }
    let below = reading::number(reading::field(s, b'-', 1)) % 128;
    -1 - (((below + 127) % 128) as i8)
}

// reading::number has no room for 2^64 - 1.
fn mask(v: &[u8], k: usize) -> u64 {
    let mut b = [0u8; 8];
    reading::bytes(&mut b, 0, reading::field(v, b' ', k));
    wire::read_u64(&[b[7], b[6], b[5], b[4], b[3], b[2], b[1], b[0]], 0)
}

fn part(p: &[u8], k: usize) -> Part {
    let s = reading::field(p, b' ', k);
    Part {
        start: reading::number(s) as usize,
        len: reading::number(reading::field(s, b'+', 1)) as usize,
    }
}

fn state(v: &[u8], value: Part) -> SetStateFields {
    SetStateFields {
        kind: short(v, 1),
        id: short(v, 2),
        mode: byte(v, 3),
        value,
    }
}

fn tracked_device(v: &[u8]) -> TrackedDeviceFields {
    TrackedDeviceFields {
        device: short(v, 1),
        location: byte(v, 2),
        profile: byte(v, 3),
        offset: signed(v, 4),
        flags: byte(v, 5),
        token: long(v, 6),
        ttl: Minutes(number(v, 7)),
    }
}

fn device_heartbeat(v: &[u8]) -> DeviceHeartbeatFields {
    DeviceHeartbeatFields {
        device: short(v, 1),
        location: byte(v, 2),
        token: long(v, 3),
        ttl: Minutes(number(v, 4)),
    }
}

fn command(v: &[u8], p: &[u8]) -> Command {
    match number(v, 0) {
        0 => Command::Setup(SetupFields {
            stone: byte(v, 1),
            sphere: byte(v, 2),
            keys: part(p, 0),
            rest: part(p, 1),
        }),
        1 => Command::FactoryReset,
        2 => Command::GetState(GetStateFields {
            kind: short(v, 1),
            id: short(v, 2),
            mode: byte(v, 3),
        }),
        3 => Command::SetState(state(v, part(p, 0))),
        4 => Command::BootloaderVersion,
        5 => Command::UicrData,
        6 => Command::IbeaconConfig(IbeaconFields {
            id: byte(v, 1),
            timestamp: long(v, 2),
            interval: short(v, 3),
        }),
        10 => Command::Reset,
        11 => Command::GotoDfu,
        12 => Command::NoOperation,
        13 => Command::Disconnect,
        20 => Command::Switch(byte(v, 1)),
        21 => Command::MultiSwitch(MultiSwitchFields {
            count: byte(v, 1),
            pairs: part(p, 0),
        }),
        _ => later_command(v),
    }
}

// Those of document 02.
fn later_command(v: &[u8]) -> Command {
    match number(v, 0) {
        70 => Command::RegisterTrackedDevice(tracked_device(v)),
        71 => Command::TrackedDeviceHeartbeat(device_heartbeat(v)),
        72 => Command::GetPresence,
        _ => Command::GetUptime,
    }
}

fn packet(v: &[u8], p: &[u8]) -> ResultPacket {
    ResultPacket {
        command: short(v, 0),
        code: short(v, 1),
        payload: part(p, 0),
    }
}

fn presence(v: &[u8]) -> PresenceResult {
    PresenceResult {
        code: short(v, 0),
        masks: [
            mask(v, 1),
            mask(v, 2),
            mask(v, 3),
            mask(v, 4),
            mask(v, 5),
            mask(v, 6),
            mask(v, 7),
            mask(v, 8),
        ],
    }
}

fn uptime(v: &[u8]) -> UptimeResult {
    UptimeResult {
        code: short(v, 0),
        uptime: Seconds(number(v, 1)),
    }
}

fn message(v: &[u8], p: &[u8]) -> Message {
    match number(v, 0) {
        0 => Message::Hello(byte(v, 1)),
        1 => Message::SessionNonce(SessionNonceFields {
            timeout: Minutes(number(v, 1)),
            nonce: [byte(v, 2), byte(v, 3), byte(v, 4), byte(v, 5), byte(v, 6)],
        }),
        2 => Message::Heartbeat(Seconds(number(v, 1))),
        3 => Message::Status(StatusFields {
            kind: byte(v, 1),
            flags: byte(v, 2),
            data: part(p, 0),
        }),
        4 => Message::GetMac,
        10 => Message::Control(command(reading::field(v, b':', 1), p)),
        _ => Message::HubReply(HubReplyFields {
            code: short(v, 1),
            data: part(p, 0),
        }),
    }
}

fn write(bytes: &[u8], line: &[u8], room: &mut [u8]) -> Result<usize, Refusal> {
    let v = reading::field(line, b'|', 2);
    let p = reading::field(line, b'|', 4);
    match wire::byte_at(reading::field(line, b'|', 1), 1) {
        b'c' => control_write::write_control(command(v, p), bytes, room),
        b'm' => message_write::write_message(message(v, p), bytes, room),
        b'p' => result::write_presence(presence(v), room),
        b'u' => result::write_uptime(uptime(v), room),
        _ => result::write_result(packet(v, p), bytes, room),
    }
}

// The writer's answer, and what stands in the room, which was full of EE.
pub fn written(out: &mut [u8], at: usize, bytes: &[u8], line: &[u8]) -> usize {
    let v = reading::field(line, b'|', 5);
    let n = number(v, 0) as usize;
    let mut room = crate::full();
    let a = match room.get_mut(..n) {
        Some(lent) => told(out, at, write(bytes, line, lent)),
        None => text::put(out, at, b" refused 0"),
    };
    contents(out, a, front(&room, n), number(v, 1) as usize)
}

fn told(out: &mut [u8], at: usize, written: Result<usize, Refusal>) -> usize {
    match written {
        Ok(n) => text::named(out, at, b" wrote ", n as u64),
        Err(refusal) => crate::refused(out, at, refusal),
    }
}

// A room in base 16; of more than 600 bytes the first 16, and 12 from a place on.
fn contents(out: &mut [u8], at: usize, room: &[u8], place: usize) -> usize {
    let a = text::put(out, at, b", ");
    if room.len() <= 600 {
        return text::hex(out, a, room);
    }
    let b = text::hex(out, a, front(room, 16));
    let c = text::put(out, b, b"..");
    let far = Part {
        start: place,
        len: 12,
    };
    text::hex(out, c, wire::part_of(room, far))
}
