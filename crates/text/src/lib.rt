// Texts of programs: bytes, decimal numbers and bytes in base 16 put into a lent room, and the fields of a line read back.
//
// Room and place go side by side: a struct that held the lent room would need, in each clause, that it still holds the same one. Digits are put here and not by
// `write!`: of a room that is too short `Puts` says which of them are there.
#![tactic(auto)]

pub mod reading;

ghost use Rattle.std.specs.Prelude.{◌≡◌, ◌++◌, ◌∷◌, [], ◌<◌, length};
ghost use Rattle.text.specs.Puts.{Puts};
ghost use Rattle.text.specs.Digits as digits;

// What fits of some bytes from a place on; the place behind them.
pub fn put(out: &mut [u8], at: usize, s: &[u8]) -> usize
    ensures { Puts s.now at out.old result out.new }
{
    let mut behind = at;
    for b in s {
        behind = put_byte(out, behind, *b);
    }
    behind
}

// One byte.
fn put_byte(out: &mut [u8], at: usize, b: u8) -> usize
    ensures { Puts (b ∷ []) at out.old result out.new }
{
    if out.len() <= at {
        return at;
    }
    out[at] = b;
    at + 1
}

// A digit below 16.
fn digit(d: u8) -> u8
    requires { d < 16 }
    ensures { result ≡ digits.digit d }
{
    if d < 10 { b'0' + d } else { b'a' + (d - 10) }
}

// A number in decimal.
pub fn decimal(out: &mut [u8], at: usize, n: u64) -> usize
    ensures { Puts (digits.decimal n) at out.old result out.new }
{
    let mut room = [0u8; 20];
    let mut i: usize = 20;
    let mut rest = n;
    // The loop goes down the number: how many digits it has is known at its end.
    while 9 < rest {
        i -= 1;
        room[i] = digit((rest % 10) as u8);
        rest /= 10;
    }
    let first = i - 1;
    room[first] = digit(rest as u8);
    put(out, at, &room[first..])
}

// Numbers in decimal, each behind a space.
pub fn decimals(out: &mut [u8], at: usize, ns: &[u64]) -> usize
    ensures { Puts (digits.decimals ns.now) at out.old result out.new }
{
    let mut behind = at;
    for n in ns {
        behind = put_byte(out, behind, b' ');
        behind = decimal(out, behind, *n);
    }
    behind
}

// A number in decimal behind its name.
pub fn named(out: &mut [u8], at: usize, name: &[u8], n: u64) -> usize
    ensures { Puts (name.now ++ digits.decimal n) at out.old result out.new }
{
    let behind = put(out, at, name);
    decimal(out, behind, n)
}

// Bytes in base 16, two digits each.
pub fn hex(out: &mut [u8], at: usize, s: &[u8]) -> usize
    ensures { Puts (digits.hex s.now) at out.old result out.new }
{
    let mut behind = at;
    for b in s {
        behind = put_byte(out, behind, digit(*b / 16));
        behind = put_byte(out, behind, digit(*b % 16));
    }
    behind
}
