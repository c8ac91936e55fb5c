// Payloads that have fields, and a packet around any payload.
ghost use Rattle.std.specs.Prelude.{◌≡◌, ◌<◌, ◌∷◌, ◌++◌, ltb, length};
ghost use Rattle.wire.specs.Numbers.{le};
ghost use Rattle.wire.specs.Fields.{wrong_size};
ghost use Rattle.wire.specs.Writing.{Writes};
ghost use Rattle.result.specs.Result.{done, code_means, is_done, presence_row, uptime_row, made, payload_for, payload_of};
ghost use Rattle.result.specs.Image.{result_bytes};

use crate::{PresenceResult, ResultPacket, ResultRead, UptimeResult};
use units::Seconds;
use wire::Refusal;

// Whether a code means done.
pub fn means_done(code: u16) -> bool
    ensures { result ≡ is_done (code_means code) }
{
    match code {
        0 => true,
        2 => true,
        _ => false,
    }
}

// Whether a done result's payload has another length than its fields.
fn wrong_done_size(command: u16, q: &[u8]) -> bool
    ensures { result ≡ wrong_size (payload_for done command).size q.now }
{
    match command {
        72 => q.len() != 64,
        80 => q.len() != 4,
        _ => false,
    }
}

// Whether a payload has a length that the result's reader refuses.
pub fn wrong_size(command: u16, code: u16, q: &[u8]) -> bool
    ensures { result ≡ wrong_size (payload_of command code).size q.now }
{
    if means_done(code) {
        return wrong_done_size(command, q);
    }
    false
}

pub fn presence(res: ResultPacket, q: &[u8]) -> ResultRead
    ensures { result ≡ made presence_row res q.now }
{
    ResultRead::Presence(PresenceResult {
        code: res.code,
        masks: [
            wire::read_u64(q, 0),
            wire::read_u64(q, 8),
            wire::read_u64(q, 16),
            wire::read_u64(q, 24),
            wire::read_u64(q, 32),
            wire::read_u64(q, 40),
            wire::read_u64(q, 48),
            wire::read_u64(q, 56),
        ],
    })
}

pub fn uptime(res: ResultPacket, q: &[u8]) -> ResultRead
    ensures { result ≡ made uptime_row res q.now }
{
    ResultRead::Uptime(UptimeResult {
        code: res.code,
        uptime: Seconds(wire::read_u32(q, 0) as u64),
    })
}

// Protocol, command type, result code, size.
pub fn head(command: u16, code: u16, size: u16) -> [u8; 7]
    ensures { result ≡ 5 ∷ (le 2 command ++ (le 2 code ++ le 2 size)) }
{
    let n = wire::u16_bytes(command);
    let c = wire::u16_bytes(code);
    let z = wire::u16_bytes(size);
    [5, n[0], n[1], c[0], c[1], z[0], z[1]]
}

// The bytes of two masks, and that eight bytes hold each.
pub fn two_masks(a: u64, b: u64) -> [u8; 16]
    ensures { (result ≡ le 8 a ++ le 8 b) × ((a < 18446744073709551616) × (b < 18446744073709551616)) }
{
    let x = wire::u64_bytes(a);
    let y = wire::u64_bytes(b);
    [
        x[0], x[1], x[2], x[3], x[4], x[5], x[6], x[7], y[0], y[1], y[2], y[3], y[4], y[5], y[6],
        y[7],
    ]
}

// A packet around a payload: 17 for one longer than the size field counts.
pub fn packet(command: u16, code: u16, q: &[u8], out: &mut [u8]) -> Result<usize, Refusal>
    ensures { Writes (ltb 65535 (length q.now)) (result_bytes command code q.now) out.old result out.new }
{
    if 65535 < q.len() {
        return Err(Refusal::BadMessageData);
    }
    wire::write3(&head(command, code, q.len() as u16), &q[0..0], q, out)
}
