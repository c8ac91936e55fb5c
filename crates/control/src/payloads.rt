// A reader for each payload: 23 for its length, 24 for a field, or the command.
ghost use Rattle.std.specs.Prelude.{◌≡◌};
ghost use Rattle.wire.specs.Fields.{wrong_at};
ghost use Rattle.control.specs.Table.{row_of, state};
ghost use Rattle.control.specs.Control.{read_payload, read_none};

use crate::{
    Command, DeviceHeartbeatFields, GetStateFields, IbeaconFields, MultiSwitchFields,
    SetStateFields, SetupFields, TrackedDeviceFields,
};
use units::Minutes;
use wire::{Part, Refusal};

pub fn setup(q: &[u8]) -> Result<Command, Refusal>
    ensures { result ≡ read_payload (row_of 0) q.now }
{
    if q.len() < 98 {
        return Err(Refusal::BadCommandLength);
    }
    Ok(Command::Setup(SetupFields {
        stone: q[0],
        sphere: q[1],
        keys: Part { start: 2, len: 96 },
        rest: Part {
            start: 98,
            len: q.len() - 98,
        },
    }))
}

pub fn factory_reset(q: &[u8]) -> Result<Command, Refusal>
    ensures { result ≡ read_payload (row_of 1) q.now }
{
    if q.len() != 4 {
        return Err(Refusal::BadCommandLength);
    }
    if wire::read_u32(q, 0) != 0xDEADBEEF {
        return Err(Refusal::BadCommandField);
    }
    Ok(Command::FactoryReset)
}

// Whether a state's mode is above a limit, or what is reserved behind it is not 0.
fn state_wrong(q: &[u8], most: u8) -> bool
    ensures { result ≡ wrong_at (state most) 0 q.now }
{
    if most < wire::byte_at(q, 4) {
        return true;
    }
    if wire::byte_at(q, 5) != 0 {
        return true;
    }
    false
}

pub fn get_state(q: &[u8]) -> Result<Command, Refusal>
    ensures { result ≡ read_payload (row_of 2) q.now }
{
    if q.len() != 6 {
        return Err(Refusal::BadCommandLength);
    }
    if state_wrong(q, 2) {
        return Err(Refusal::BadCommandField);
    }
    Ok(Command::GetState(GetStateFields {
        kind: wire::read_u16(q, 0),
        id: wire::read_u16(q, 2),
        mode: q[4],
    }))
}

pub fn set_state(q: &[u8]) -> Result<Command, Refusal>
    ensures { result ≡ read_payload (row_of 3) q.now }
{
    if q.len() < 6 {
        return Err(Refusal::BadCommandLength);
    }
    if state_wrong(q, 1) {
        return Err(Refusal::BadCommandField);
    }
    Ok(Command::SetState(SetStateFields {
        kind: wire::read_u16(q, 0),
        id: wire::read_u16(q, 2),
        mode: q[4],
        value: Part {
            start: 6,
            len: q.len() - 6,
        },
    }))
}

pub fn ibeacon_config(q: &[u8]) -> Result<Command, Refusal>
    ensures { result ≡ read_payload (row_of 6) q.now }
{
    if q.len() != 7 {
        return Err(Refusal::BadCommandLength);
    }
    let id = q[0];
    if 1 < id {
        return Err(Refusal::BadCommandField);
    }
    Ok(Command::IbeaconConfig(IbeaconFields {
        id,
        timestamp: wire::read_u32(q, 1),
        interval: wire::read_u16(q, 5),
    }))
}

pub fn switch(q: &[u8]) -> Result<Command, Refusal>
    ensures { result ≡ read_payload (row_of 20) q.now }
{
    if q.len() != 1 {
        return Err(Refusal::BadCommandLength);
    }
    let value = q[0];
    if 100 < value {
        return Err(Refusal::BadCommandField);
    }
    Ok(Command::Switch(value))
}

pub fn multi_switch(q: &[u8]) -> Result<Command, Refusal>
    ensures { result ≡ read_payload (row_of 21) q.now }
{
    if q.len() == 0 {
        return Err(Refusal::BadCommandLength);
    }
    let count = q[0];
    if q.len() != 1 + 2 * wire::wide(count) {
        return Err(Refusal::BadCommandLength);
    }
    if wire::layouts::second_above(100, &q[1..]) {
        return Err(Refusal::BadCommandField);
    }
    Ok(Command::MultiSwitch(MultiSwitchFields {
        count,
        pairs: Part {
            start: 1,
            len: q.len() - 1,
        },
    }))
}

pub fn register_tracked_device(q: &[u8]) -> Result<Command, Refusal>
    ensures { result ≡ read_payload (row_of 70) q.now }
{
    if q.len() != 11 {
        return Err(Refusal::BadCommandLength);
    }
    Ok(Command::RegisterTrackedDevice(TrackedDeviceFields {
        device: wire::read_u16(q, 0),
        location: q[2],
        profile: q[3],
        offset: wire::signed_of(q[4]),
        flags: q[5],
        token: wire::read_u24(q, 6),
        ttl: Minutes(wire::read_u16(q, 9) as u64),
    }))
}

// A device's heartbeat holds for at most 60 minutes.
pub fn tracked_device_heartbeat(q: &[u8]) -> Result<Command, Refusal>
    ensures { result ≡ read_payload (row_of 71) q.now }
{
    if q.len() != 7 {
        return Err(Refusal::BadCommandLength);
    }
    let minutes = wire::byte_at(q, 6);
    if 60 < minutes {
        return Err(Refusal::BadCommandField);
    }
    Ok(Command::TrackedDeviceHeartbeat(DeviceHeartbeatFields {
        device: wire::read_u16(q, 0),
        location: q[2],
        token: wire::read_u24(q, 3),
        ttl: Minutes(minutes as u64),
    }))
}

// A command that has no payload.
pub fn none(q: &[u8], command: Command) -> Result<Command, Refusal>
    ensures { result ≡ read_none command q.now }
{
    if q.len() != 0 {
        return Err(Refusal::BadCommandLength);
    }
    Ok(command)
}
