// A writer for each type: 17 for what its reader would refuse.
ghost use Rattle.std.specs.Prelude.{◌++◌, ltb, length};
ghost use Rattle.wire.specs.Numbers.{le};
ghost use Rattle.wire.specs.Writing.{Writes};
ghost use Rattle.message.specs.declared.Message.TheVariants.{Hello, SessionNonce, Heartbeat, Status, GetMac, Control, HubReply};
ghost use Rattle.message_write.specs.Image.{WritesMessage};

use control::Command;
use message::{HubReplyFields, SessionNonceFields, StatusFields};
use units::Seconds;
use wire::Refusal;

// A data type, and data of fields and a slice: at most 507 bytes.
pub fn typed(number: u16, fields: &[u8], rest: &[u8], out: &mut [u8]) -> Result<usize, Refusal>
    ensures { Writes (ltb 507 (length (le 2 number ++ (fields.now ++ rest.now)))) (le 2 number ++ (fields.now ++ rest.now)) out.old result out.new }
{
    if 505 < fields.len() {
        return Err(Refusal::BadMessageData);
    }
    if 505 - fields.len() < rest.len() {
        return Err(Refusal::BadMessageData);
    }
    let head = wire::u16_bytes(number);
    wire::write3(&head, fields, rest, out)
}

pub fn hello(flags: u8, bytes: &[u8], out: &mut [u8]) -> Result<usize, Refusal>
    ensures { WritesMessage (Hello flags) bytes.now out.old result out.new }
{
    if 15 < flags {
        return Err(Refusal::BadMessageData);
    }
    let fields = [flags];
    typed(0, &fields, &bytes[0..0], out)
}

pub fn session_nonce(f: SessionNonceFields, bytes: &[u8], out: &mut [u8]) -> Result<usize, Refusal>
    ensures { WritesMessage (SessionNonce f) bytes.now out.old result out.new }
{
    if 255 < f.timeout.0 {
        return Err(Refusal::BadMessageData);
    }
    let [a, b, c, d, e] = f.nonce;
    let fields = [f.timeout.0 as u8, a, b, c, d, e];
    typed(1, &fields, &bytes[0..0], out)
}

pub fn heartbeat(timeout: Seconds, bytes: &[u8], out: &mut [u8]) -> Result<usize, Refusal>
    ensures { WritesMessage (Heartbeat timeout) bytes.now out.old result out.new }
{
    if 65535 < timeout.0 {
        return Err(Refusal::BadMessageData);
    }
    let fields = wire::u16_bytes(timeout.0 as u16);
    typed(2, &fields, &bytes[0..0], out)
}

pub fn status(f: StatusFields, bytes: &[u8], out: &mut [u8]) -> Result<usize, Refusal>
    ensures { WritesMessage (Status f) bytes.now out.old result out.new }
{
    if wire::layouts::runs_past(bytes, f.data) {
        return Err(Refusal::BadMessageData);
    }
    if f.data.len != 9 {
        return Err(Refusal::BadMessageData);
    }
    if 1 < f.kind {
        return Err(Refusal::BadMessageData);
    }
    if 15 < f.flags {
        return Err(Refusal::BadMessageData);
    }
    let fields = [f.kind, f.flags];
    typed(3, &fields, wire::part_of(bytes, f.data), out)
}

pub fn get_mac(bytes: &[u8], out: &mut [u8]) -> Result<usize, Refusal>
    ensures { WritesMessage GetMac bytes.now out.old result out.new }
{
    let none = &bytes[0..0];
    typed(4, none, none, out)
}

// A control packet behind the type's two bytes: 500 bytes of payload make a message of 507.
pub fn control_packet(c: Command, bytes: &[u8], out: &mut [u8]) -> Result<usize, Refusal>
    ensures { WritesMessage (Control c) bytes.now out.old result out.new }
{
    let head = [10, 0];
    control_write::write_behind(&head, 500, c, bytes, out)
}

pub fn hub_reply(f: HubReplyFields, bytes: &[u8], out: &mut [u8]) -> Result<usize, Refusal>
    ensures { WritesMessage (HubReply f) bytes.now out.old result out.new }
{
    if wire::layouts::runs_past(bytes, f.data) {
        return Err(Refusal::BadMessageData);
    }
    let fields = wire::u16_bytes(f.code);
    typed(11, &fields, wire::part_of(bytes, f.data), out)
}
