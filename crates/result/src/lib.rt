// Result packets: reader and writers.
#![tactic(auto)]

mod payloads;

ghost use Rattle.std.specs.Prelude.{◌≡◌};
ghost use Rattle.wire.specs.Writing.{Writes};
ghost use Rattle.result.specs.Result.{done, case_for, outcome_of, read_payload, ReadsResult};
ghost use Rattle.result.specs.Image.{result_bad, result_image, presence_bad, presence_image, uptime_bad, uptime_image};

use units::Seconds;
use wire::{Part, Refusal};

// The command that is answered, its result code, and the payload as a part of the packet, or of the bytes lent to the writer.
#[derive(Clone, Copy)]
pub struct ResultPacket {
    pub command: u16,
    pub code: u16,
    pub payload: Part,
}

// Get presence, done: a mask of rooms for each of eight profiles, whose bit n is set where room n is occupied.
#[derive(Clone, Copy)]
pub struct PresenceResult {
    pub code: u16,
    pub masks: [u64; 8],
}

// Get uptime, done: the time since boot.
#[derive(Clone, Copy)]
pub struct UptimeResult {
    pub code: u16,
    pub uptime: Seconds,
}

// Nobody gets at a result without seeing what came of the command, nor at masks or an uptime of one that is not done.
#[derive(Clone, Copy)]
pub enum ResultRead {
    Done(ResultPacket),
    Presence(PresenceResult),
    Uptime(UptimeResult),
    Waiting(ResultPacket),
    Failed(ResultPacket),
}

// A done result: its values where the table has fields for the command.
fn done_of(res: ResultPacket, q: &[u8]) -> ResultRead
    ensures { result ≡ case_for done res q.now }
{
    match res.command {
        72 => payloads::presence(res, q),
        80 => payloads::uptime(res, q),
        _ => ResultRead::Done(res),
    }
}

// What came of the command, by the result's code.
fn outcome_of(res: ResultPacket, q: &[u8]) -> ResultRead
    ensures { result ≡ outcome_of res q.now }
{
    if payloads::means_done(res.code) {
        return done_of(res, q);
    }
    if res.code == 1 {
        return ResultRead::Waiting(res);
    }
    ResultRead::Failed(res)
}

// A result and its payload's bytes: 23, or what came of the command.
fn read_payload(res: ResultPacket, q: &[u8]) -> Result<ResultRead, Refusal>
    ensures { result ≡ read_payload res q.now }
{
    if payloads::wrong_size(res.command, res.code, q) {
        return Err(Refusal::BadCommandLength);
    }
    Ok(outcome_of(res, q))
}

// A result packet: 18, 19, 23, or what came of the command.
pub fn read_result(packet: &[u8]) -> Result<ResultRead, Refusal>
    ensures { ReadsResult packet.now result }
{
    if packet.len() < 7 {
        return Err(Refusal::BadPacketLength);
    }
    if packet.len() != 7 + (wire::read_u16(packet, 5) as usize) {
        return Err(Refusal::BadPacketLength);
    }
    if packet[0] != 5 {
        return Err(Refusal::UnknownProtocol);
    }
    read_payload(
        ResultPacket {
            command: wire::read_u16(packet, 1),
            code: wire::read_u16(packet, 3),
            payload: Part {
                start: 7,
                len: packet.len() - 7,
            },
        },
        &packet[7..],
    )
}

// A result's packet, its payload a part of `bytes`.
pub fn write_result(res: ResultPacket, bytes: &[u8], out: &mut [u8]) -> Result<usize, Refusal>
    ensures { Writes (result_bad res bytes.now) (result_image res bytes.now) out.old result out.new }
{
    if wire::layouts::runs_past(bytes, res.payload) {
        return Err(Refusal::BadMessageData);
    }
    let q = wire::part_of(bytes, res.payload);
    if payloads::wrong_size(res.command, res.code, q) {
        return Err(Refusal::BadMessageData);
    }
    payloads::packet(res.command, res.code, q, out)
}

// A done result of get presence: 17 for a code that does not mean done.
pub fn write_presence(res: PresenceResult, out: &mut [u8]) -> Result<usize, Refusal>
    ensures { Writes (presence_bad res) (presence_image res) out.old result out.new }
{
    let [a, b, c, d, e, f, g, h] = res.masks;
    if payloads::means_done(res.code) {
        return wire::layouts::write5(
            &payloads::head(72, res.code, 64),
            &payloads::two_masks(a, b),
            &payloads::two_masks(c, d),
            &payloads::two_masks(e, f),
            &payloads::two_masks(g, h),
            out,
        );
    }
    Err(Refusal::BadMessageData)
}

// A done result of get uptime: 17 for a code that does not mean done, and for more seconds than four bytes hold.
pub fn write_uptime(res: UptimeResult, out: &mut [u8]) -> Result<usize, Refusal>
    ensures { Writes (uptime_bad res) (uptime_image res) out.old result out.new }
{
    if 4294967295 < res.uptime.0 {
        return Err(Refusal::BadMessageData);
    }
    if payloads::means_done(res.code) {
        let fields = wire::u32_bytes(res.uptime.0 as u32);
        return payloads::packet(80, res.code, &fields, out);
    }
    Err(Refusal::BadMessageData)
}
