// Control packets: the commands, and their reader.
#![tactic(auto)]

mod marks;
mod payloads;

ghost use Rattle.std.specs.Prelude.{◌≡◌, drop};
ghost use Rattle.control.specs.Command.{key_part};
ghost use Rattle.control.specs.Table.{row_of};
ghost use Rattle.control.specs.Control.{ReadsControl, read_command, read_row};

use crate::marks::{A, AM, AMB, AMBS, S, by_mark};
use access::{Access, Mode};
use units::Minutes;
use wire::{Part, Refusal};

// A part in a command counts from the start of the command's payload.
#[derive(Clone, Copy)]
pub enum Command {
    Setup(SetupFields),
    FactoryReset,
    GetState(GetStateFields),
    SetState(SetStateFields),
    BootloaderVersion,
    UicrData,
    IbeaconConfig(IbeaconFields),
    Reset,
    GotoDfu,
    NoOperation,
    Disconnect,
    Switch(u8),
    MultiSwitch(MultiSwitchFields),
    RegisterTrackedDevice(TrackedDeviceFields),
    TrackedDeviceHeartbeat(DeviceHeartbeatFields),
    GetPresence,
    GetUptime,
}

// Keys: six of 16 bytes, one behind the other.
#[derive(Clone, Copy)]
pub struct SetupFields {
    pub stone: u8,
    pub sphere: u8,
    pub keys: Part,
    pub rest: Part,
}

// Kind: the state's type.
#[derive(Clone, Copy)]
pub struct GetStateFields {
    pub kind: u16,
    pub id: u16,
    pub mode: u8,
}

#[derive(Clone, Copy)]
pub struct SetStateFields {
    pub kind: u16,
    pub id: u16,
    pub mode: u8,
    pub value: Part,
}

#[derive(Clone, Copy)]
pub struct IbeaconFields {
    pub id: u8,
    pub timestamp: u32,
    pub interval: u16,
}

// Pairs: a stone and a switch value each.
#[derive(Clone, Copy)]
pub struct MultiSwitchFields {
    pub count: u8,
    pub pairs: Part,
}

// Offset: from the standard signal strength (RSSI); token: a number of three bytes; ttl: the time to live.
#[derive(Clone, Copy)]
pub struct TrackedDeviceFields {
    pub device: u16,
    pub location: u8,
    pub profile: u8,
    pub offset: i8,
    pub flags: u8,
    pub token: u32,
    pub ttl: Minutes,
}

// Where a registered device is, and for how long that holds.
#[derive(Clone, Copy)]
pub struct DeviceHeartbeatFields {
    pub device: u16,
    pub location: u8,
    pub token: u32,
    pub ttl: Minutes,
}

// The part of the key with an index from 0 to 5; an empty one for any other, and where the keys are not 96 bytes of a payload.
pub fn key_part(keys: Part, index: usize) -> Part
    ensures { result ≡ key_part keys index }
{
    if keys.len != 96 {
        return Part { start: 0, len: 0 };
    }
    if 5 < index {
        return Part { start: 0, len: 0 };
    }
    if 65535 < keys.start {
        return Part { start: 0, len: 0 };
    }
    Part {
        start: keys.start + 16 * index,
        len: 16,
    }
}

// A control packet that came in a mode, plain or with a level's key: 18 to 24, or the command.
pub fn read_control(packet: &[u8], mode: Mode, access: Access) -> Result<Command, Refusal>
    ensures { ReadsControl packet.now mode access result }
{
    if packet.len() < 5 {
        return Err(Refusal::BadPacketLength);
    }
    if packet.len() != 5 + (wire::read_u16(packet, 3) as usize) {
        return Err(Refusal::BadPacketLength);
    }
    read_command(packet, mode, access)
}

// Protocol, command type and payload of a packet, whatever its size field: 19 to 24, or the command.
fn read_command(packet: &[u8], mode: Mode, access: Access) -> Result<Command, Refusal>
    ensures { result ≡ read_command packet.now mode access }
{
    if wire::byte_at(packet, 0) != 5 {
        return Err(Refusal::UnknownProtocol);
    }
    read_row(wire::read_u16(packet, 1), payload(packet), mode, access)
}

// What stands behind the five bytes of protocol, command type and size.
fn payload(p: &[u8]) -> &[u8]
    ensures { result.now ≡ drop 5 p.now }
{
    if p.len() < 5 {
        return &p[0..0];
    }
    &p[5..]
}

// The table of commands: number, marks, payload.
fn read_row(number: u16, q: &[u8], mode: Mode, access: Access) -> Result<Command, Refusal>
    ensures { result ≡ read_row (row_of number) q.now mode access }
{
    match number {
        0 => by_mark(S, mode, access, payloads::setup(q)),
        1 => by_mark(A, mode, access, payloads::factory_reset(q)),
        2 => by_mark(AMB, mode, access, payloads::get_state(q)),
        3 => by_mark(AMB, mode, access, payloads::set_state(q)),
        4 => by_mark(
            AMBS,
            mode,
            access,
            payloads::none(q, Command::BootloaderVersion),
        ),
        5 => by_mark(AMBS, mode, access, payloads::none(q, Command::UicrData)),
        6 => by_mark(A, mode, access, payloads::ibeacon_config(q)),
        10 => by_mark(A, mode, access, payloads::none(q, Command::Reset)),
        11 => by_mark(A, mode, access, payloads::none(q, Command::GotoDfu)),
        12 => by_mark(AMB, mode, access, payloads::none(q, Command::NoOperation)),
        13 => by_mark(AMB, mode, access, payloads::none(q, Command::Disconnect)),
        20 => by_mark(AMBS, mode, access, payloads::switch(q)),
        21 => by_mark(AMB, mode, access, payloads::multi_switch(q)),
        70 => by_mark(AMB, mode, access, payloads::register_tracked_device(q)),
        71 => by_mark(AMB, mode, access, payloads::tracked_device_heartbeat(q)),
        72 => by_mark(AM, mode, access, payloads::none(q, Command::GetPresence)),
        80 => by_mark(A, mode, access, payloads::none(q, Command::GetUptime)),
        _ => Err(Refusal::UnknownCommand),
    }
}
