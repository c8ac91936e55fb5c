// The numbers, the RSSI offset and the parts of each command and each message.
ghost use Rattle.std.specs.Prelude.{◌≡◌, ◌∷◌, []};
ghost use Rattle.control.specs.Command.{command_number, command_values, command_parts};
ghost use Rattle.control.specs.declared.Command.TheVariants.{RegisterTrackedDevice, TrackedDeviceHeartbeat};
ghost use Rattle.message.specs.Message.{message_type, message_values, message_parts};
ghost use Rattle.text.specs.Puts.{Puts};
ghost use Rattle.text.specs.Digits.{decimals};
ghost use Rattle.content_text.specs.Content.{part_texts, command_offset, message_offset};

use control::{Command, DeviceHeartbeatFields, TrackedDeviceFields};
use message::Message;

// A command's number, and those in its fields.
pub fn command_numbers(out: &mut [u8], at: usize, c: Command) -> usize
    ensures { Puts (decimals (command_number c ∷ command_values c)) at out.old result out.new }
{
    match c {
        Command::Setup(f) => text::decimals(out, at, &[0, f.stone as u64, f.sphere as u64]),
        Command::FactoryReset => text::decimals(out, at, &[1, 0xDEADBEEF]),
        Command::GetState(f) => state(out, at, 2, f.kind, f.id, f.mode),
        Command::SetState(f) => state(out, at, 3, f.kind, f.id, f.mode),
        Command::BootloaderVersion => text::decimals(out, at, &[4]),
        Command::UicrData => text::decimals(out, at, &[5]),
        Command::IbeaconConfig(f) => {
            let numbers = [6, f.id as u64, f.timestamp as u64, f.interval as u64];
            text::decimals(out, at, &numbers)
        }
        Command::Reset => text::decimals(out, at, &[10]),
        Command::GotoDfu => text::decimals(out, at, &[11]),
        Command::NoOperation => text::decimals(out, at, &[12]),
        Command::Disconnect => text::decimals(out, at, &[13]),
        Command::Switch(value) => text::decimals(out, at, &[20, value as u64]),
        Command::MultiSwitch(f) => text::decimals(out, at, &[21, f.count as u64]),
        Command::RegisterTrackedDevice(f) => tracked_device(out, at, f),
        Command::TrackedDeviceHeartbeat(f) => device_heartbeat(out, at, f),
        Command::GetPresence => text::decimals(out, at, &[72]),
        Command::GetUptime => text::decimals(out, at, &[80]),
    }
}

fn state(out: &mut [u8], at: usize, number: u64, kind: u16, id: u16, mode: u8) -> usize
    ensures { Puts (decimals (number ∷ kind ∷ id ∷ mode ∷ 0 ∷ [])) at out.old result out.new }
{
    text::decimals(out, at, &[number, kind as u64, id as u64, mode as u64, 0])
}

fn tracked_device(out: &mut [u8], at: usize, f: TrackedDeviceFields) -> usize
    ensures { Puts (decimals (70 ∷ command_values (RegisterTrackedDevice f))) at out.old result out.new }
{
    let numbers = [
        70,
        f.device as u64,
        f.location as u64,
        f.profile as u64,
        wire::unsigned_of(f.offset) as u64,
        f.flags as u64,
        f.token as u64,
        f.ttl.0,
    ];
    text::decimals(out, at, &numbers)
}

fn device_heartbeat(out: &mut [u8], at: usize, f: DeviceHeartbeatFields) -> usize
    ensures { Puts (decimals (71 ∷ command_values (TrackedDeviceHeartbeat f))) at out.old result out.new }
{
    let numbers = [
        71,
        f.device as u64,
        f.location as u64,
        f.token as u64,
        f.ttl.0,
    ];
    text::decimals(out, at, &numbers)
}

// The RSSI offset of a command that has one.
pub fn command_offset(c: Command) -> Option<i8>
    ensures { result ≡ command_offset c }
{
    match c {
        Command::RegisterTrackedDevice(f) => Some(f.offset),
        _ => None,
    }
}

pub fn command_parts(out: &mut [u8], at: usize, c: Command) -> usize
    ensures { Puts (part_texts (command_parts c)) at out.old result out.new }
{
    match c {
        Command::Setup(f) => {
            let behind = crate::part(out, at, f.keys);
            crate::part(out, behind, f.rest)
        }
        Command::SetState(f) => crate::part(out, at, f.value),
        Command::MultiSwitch(f) => crate::part(out, at, f.pairs),
        _ => at,
    }
}

pub fn message_type(m: Message) -> u64
    ensures { result ≡ message_type m }
{
    match m {
        Message::Hello(_) => 0,
        Message::SessionNonce(_) => 1,
        Message::Heartbeat(_) => 2,
        Message::Status(_) => 3,
        Message::GetMac => 4,
        Message::Control(_) => 10,
        Message::HubReply(_) => 11,
    }
}

// Behind the type.
pub fn message_numbers(out: &mut [u8], at: usize, m: Message) -> usize
    ensures { Puts (decimals (message_values m)) at out.old result out.new }
{
    match m {
        Message::Hello(flags) => text::decimals(out, at, &[flags as u64]),
        Message::SessionNonce(f) => {
            let [a, b, c, d, e] = f.nonce.map(u64::from);
            text::decimals(out, at, &[f.timeout.0, a, b, c, d, e])
        }
        Message::Heartbeat(timeout) => text::decimals(out, at, &[timeout.0]),
        Message::Status(f) => text::decimals(out, at, &[f.kind as u64, f.flags as u64]),
        Message::GetMac => at,
        Message::Control(c) => command_numbers(out, at, c),
        Message::HubReply(f) => text::decimals(out, at, &[f.code as u64]),
    }
}

pub fn message_offset(m: Message) -> Option<i8>
    ensures { result ≡ message_offset m }
{
    match m {
        Message::Control(c) => command_offset(c),
        _ => None,
    }
}

pub fn message_parts(out: &mut [u8], at: usize, m: Message) -> usize
    ensures { Puts (part_texts (message_parts m)) at out.old result out.new }
{
    match m {
        Message::Status(f) => crate::part(out, at, f.data),
        Message::Control(c) => command_parts(out, at, c),
        Message::HubReply(f) => crate::part(out, at, f.data),
        _ => at,
    }
}
