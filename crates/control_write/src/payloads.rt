// A writer for each payload: 17 for what its reader would refuse.
ghost use Rattle.std.specs.Prelude.{◌||◌, ◌≡◌, ◌++◌, ◌∷◌, [], ltb, length};
ghost use Rattle.wire.specs.Numbers.{le};
ghost use Rattle.wire.specs.Writing.{Writes};
ghost use Rattle.control.specs.declared.Command.TheVariants.{Setup, FactoryReset, GetState, SetState, IbeaconConfig, Switch, MultiSwitch, RegisterTrackedDevice, TrackedDeviceHeartbeat};
ghost use Rattle.control_write.specs.Image.{packet_image, WritesBehind};

use control::{
    DeviceHeartbeatFields, GetStateFields, IbeaconFields, MultiSwitchFields, SetStateFields,
    SetupFields, TrackedDeviceFields,
};
use wire::Refusal;

// A packet behind the bytes of `front`, its payload `fields`, `a` and `b`: 17 for one longer than the size field counts, or than `limit`.
pub fn packet(
    front: &[u8],
    limit: usize,
    number: u16,
    fields: &[u8],
    a: &[u8],
    b: &[u8],
    out: &mut [u8],
) -> Result<usize, Refusal>
    ensures { Writes (ltb 65535 (length (fields.now ++ (a.now ++ b.now))) || ltb limit (length (fields.now ++ (a.now ++ b.now))))
        (front.now ++ packet_image number (fields.now ++ (a.now ++ b.now))) out.old result out.new }
{
    if 65535 < fields.len() {
        return Err(Refusal::BadMessageData);
    }
    if 65535 - fields.len() < a.len() {
        return Err(Refusal::BadMessageData);
    }
    if 65535 - fields.len() - a.len() < b.len() {
        return Err(Refusal::BadMessageData);
    }
    let size = fields.len() + a.len() + b.len();
    if limit < size {
        return Err(Refusal::BadMessageData);
    }
    let n = wire::u16_bytes(number);
    let z = wire::u16_bytes(size as u16);
    let head = [5, n[0], n[1], z[0], z[1]];
    wire::layouts::write5(front, &head, fields, a, b, out)
}

pub fn setup(
    front: &[u8],
    limit: usize,
    f: SetupFields,
    bytes: &[u8],
    out: &mut [u8],
) -> Result<usize, Refusal>
    ensures { WritesBehind front.now limit (Setup f) bytes.now out.old result out.new }
{
    if wire::layouts::runs_past(bytes, f.keys) {
        return Err(Refusal::BadMessageData);
    }
    if wire::layouts::runs_past(bytes, f.rest) {
        return Err(Refusal::BadMessageData);
    }
    if f.keys.len != 96 {
        return Err(Refusal::BadMessageData);
    }
    let fields = [f.stone, f.sphere];
    packet(
        front,
        limit,
        0,
        &fields,
        wire::part_of(bytes, f.keys),
        wire::part_of(bytes, f.rest),
        out,
    )
}

pub fn factory_reset(
    front: &[u8],
    limit: usize,
    bytes: &[u8],
    out: &mut [u8],
) -> Result<usize, Refusal>
    ensures { WritesBehind front.now limit FactoryReset bytes.now out.old result out.new }
{
    let none = &bytes[0..0];
    let fields = [0xEF, 0xBE, 0xAD, 0xDE];
    packet(front, limit, 1, &fields, none, none, out)
}

// A state's type, id and mode, and what is reserved behind them.
fn state_fields(kind: u16, id: u16, mode: u8) -> [u8; 6]
    ensures { result ≡ le 2 kind ++ (le 2 id ++ (mode ∷ 0 ∷ [])) }
{
    let k = wire::u16_bytes(kind);
    let i = wire::u16_bytes(id);
    [k[0], k[1], i[0], i[1], mode, 0]
}

pub fn get_state(
    front: &[u8],
    limit: usize,
    f: GetStateFields,
    bytes: &[u8],
    out: &mut [u8],
) -> Result<usize, Refusal>
    ensures { WritesBehind front.now limit (GetState f) bytes.now out.old result out.new }
{
    if 2 < f.mode {
        return Err(Refusal::BadMessageData);
    }
    let none = &bytes[0..0];
    let fields = state_fields(f.kind, f.id, f.mode);
    packet(front, limit, 2, &fields, none, none, out)
}

pub fn set_state(
    front: &[u8],
    limit: usize,
    f: SetStateFields,
    bytes: &[u8],
    out: &mut [u8],
) -> Result<usize, Refusal>
    ensures { WritesBehind front.now limit (SetState f) bytes.now out.old result out.new }
{
    if wire::layouts::runs_past(bytes, f.value) {
        return Err(Refusal::BadMessageData);
    }
    if 1 < f.mode {
        return Err(Refusal::BadMessageData);
    }
    let fields = state_fields(f.kind, f.id, f.mode);
    packet(
        front,
        limit,
        3,
        &fields,
        &bytes[0..0],
        wire::part_of(bytes, f.value),
        out,
    )
}

pub fn ibeacon_config(
    front: &[u8],
    limit: usize,
    f: IbeaconFields,
    bytes: &[u8],
    out: &mut [u8],
) -> Result<usize, Refusal>
    ensures { WritesBehind front.now limit (IbeaconConfig f) bytes.now out.old result out.new }
{
    if 1 < f.id {
        return Err(Refusal::BadMessageData);
    }
    let none = &bytes[0..0];
    let t = wire::u32_bytes(f.timestamp);
    let i = wire::u16_bytes(f.interval);
    let fields = [f.id, t[0], t[1], t[2], t[3], i[0], i[1]];
    packet(front, limit, 6, &fields, none, none, out)
}

pub fn switch(
    front: &[u8],
    limit: usize,
    value: u8,
    bytes: &[u8],
    out: &mut [u8],
) -> Result<usize, Refusal>
    ensures { WritesBehind front.now limit (Switch value) bytes.now out.old result out.new }
{
    if 100 < value {
        return Err(Refusal::BadMessageData);
    }
    let none = &bytes[0..0];
    let fields = [value];
    packet(front, limit, 20, &fields, none, none, out)
}

pub fn multi_switch(
    front: &[u8],
    limit: usize,
    f: MultiSwitchFields,
    bytes: &[u8],
    out: &mut [u8],
) -> Result<usize, Refusal>
    ensures { WritesBehind front.now limit (MultiSwitch f) bytes.now out.old result out.new }
{
    if wire::layouts::runs_past(bytes, f.pairs) {
        return Err(Refusal::BadMessageData);
    }
    if f.pairs.len != 2 * wire::wide(f.count) {
        return Err(Refusal::BadMessageData);
    }
    let named = wire::part_of(bytes, f.pairs);
    if wire::layouts::second_above(100, named) {
        return Err(Refusal::BadMessageData);
    }
    let fields = [f.count];
    packet(front, limit, 21, &fields, &bytes[0..0], named, out)
}

pub fn register_tracked_device(
    front: &[u8],
    limit: usize,
    f: TrackedDeviceFields,
    bytes: &[u8],
    out: &mut [u8],
) -> Result<usize, Refusal>
    ensures { WritesBehind front.now limit (RegisterTrackedDevice f) bytes.now out.old result out.new }
{
    if 0xFFFFFF < f.token {
        return Err(Refusal::BadMessageData);
    }
    if 65535 < f.ttl.0 {
        return Err(Refusal::BadMessageData);
    }
    let none = &bytes[0..0];
    let d = wire::u16_bytes(f.device);
    let o = wire::unsigned_of(f.offset);
    let t = wire::u24_bytes(f.token);
    let m = wire::u16_bytes(f.ttl.0 as u16);
    let fields = [
        d[0], d[1], f.location, f.profile, o, f.flags, t[0], t[1], t[2], m[0], m[1],
    ];
    packet(front, limit, 70, &fields, none, none, out)
}

pub fn tracked_device_heartbeat(
    front: &[u8],
    limit: usize,
    f: DeviceHeartbeatFields,
    bytes: &[u8],
    out: &mut [u8],
) -> Result<usize, Refusal>
    ensures { WritesBehind front.now limit (TrackedDeviceHeartbeat f) bytes.now out.old result out.new }
{
    if 0xFFFFFF < f.token {
        return Err(Refusal::BadMessageData);
    }
    if 60 < f.ttl.0 {
        return Err(Refusal::BadMessageData);
    }
    let none = &bytes[0..0];
    let d = wire::u16_bytes(f.device);
    let t = wire::u24_bytes(f.token);
    let fields = [d[0], d[1], f.location, t[0], t[1], t[2], f.ttl.0 as u8];
    packet(front, limit, 71, &fields, none, none, out)
}

// A command that has no payload.
pub fn none(
    front: &[u8],
    limit: usize,
    number: u16,
    bytes: &[u8],
    out: &mut [u8],
) -> Result<usize, Refusal>
    ensures { Writes (ltb limit 0) (front.now ++ packet_image number []) out.old result out.new }
{
    let empty = &bytes[0..0];
    packet(front, limit, number, empty, empty, empty, out)
}
