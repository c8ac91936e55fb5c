// CRC-16 with polynomial 1021, two bytes at a time, by two tables.
#![tactic(auto)]

mod tables;

ghost use Rattle.std.specs.Prelude.{◌≡◌, ◌<◌};
ghost use Rattle.std.specs.Int.Bits.{bit_xor};
ghost use Rattle.crc.specs.Crc.{crc_byte, crc_from, crc_of};

use tables::{ONCE, TWICE};

// Which entry of a table a byte asks for, where `top` is the CRC's upper or lower byte.
fn entry(top: u16, b: u8) -> usize
    requires { top < 256 }
    ensures { (result ≡ bit_xor top b) × (result < 256) }
{
    usize::from(top ^ u16::from(b))
}

// The CRC after one more byte.
fn after_one(c: u16, a: u8) -> u16
    ensures { result ≡ crc_byte c a }
{
    let i = entry(c >> 8, a);
    ONCE[i] ^ (c << 8)
}

// The CRC after two more bytes.
fn after_two(c: u16, a: u8, b: u8) -> u16
    ensures { result ≡ crc_byte (crc_byte c a) b }
{
    let i = entry(c >> 8, a);
    let j = entry(c % 256, b);
    TWICE[i] ^ ONCE[j]
}

// The CRC of a slice, taken on from `from`.
pub fn crc_from(from: u16, s: &[u8]) -> u16
    ensures { result ≡ crc_from from s.now }
{
    let mut c = from;
    let mut rest = s;
    while let [a, b, more @ ..] = rest {
        c = after_two(c, *a, *b);
        rest = more;
    }
    match rest {
        [a] => after_one(c, *a),
        _ => c,
    }
}

// The CRC of a slice.
pub fn crc(s: &[u8]) -> u16
    ensures { result ≡ crc_of s.now }
{
    crc_from(0xFFFF, s)
}
