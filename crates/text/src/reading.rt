// The fields of a line, and what they stand for.
ghost use Rattle.std.specs.Prelude.{◌≡◌, ◌<◌, ◌≤◌};
ghost use Rattle.text.specs.Puts.{Puts};
ghost use Rattle.text.specs.Reading as specs;

// The field with a number, counted from 0: the bytes between two separators.
pub fn field(s: &[u8], sep: u8, k: usize) -> &[u8]
    ensures { result.now ≡ specs.field sep k s.now }
{
    s.split(|b| *b == sep).nth(k).unwrap_or(&[])
}

// How many separators there are.
pub fn count(s: &[u8], sep: u8) -> usize
    ensures { result ≡ specs.count sep s.now }
{
    s.iter().filter(|b| **b == sep).count()
}

// A number with one more digit.
fn with_digit(n: u64, b: u8) -> u64
    requires { (48 ≤ b) × (b ≤ 57) }
    ensures { result ≡ specs.with_digit n b }
{
    if n < 1_000_000_000_000_000_000 {
        10 * n + u64::from(b - b'0')
    } else {
        n
    }
}

// The number whose decimal digits stand at the front.
pub fn number(s: &[u8]) -> u64
    ensures { result ≡ specs.number s.now }
{
    let mut n = 0;
    for b in s {
        if !b.is_ascii_digit() {
            return n;
        }
        n = with_digit(n, *b);
    }
    n
}

// The value of a digit in base 16; 0 for any other byte.
fn value(b: u8) -> u8
    ensures { (result ≡ specs.value b) × (result < 16) }
{
    match b {
        b'0'..=b'9' => b - b'0',
        b'a'..=b'f' => b - b'a' + 10,
        _ => 0,
    }
}

// Bytes of two digits each.
fn pairs(out: &mut [u8], at: usize, s: &[u8]) -> usize
    ensures { Puts (specs.pairs s.now) at out.old result out.new }
{
    let mut behind = at;
    for pair in s.chunks_exact(2) {
        let b = 16 * value(pair[0]) + value(pair[1]);
        behind = crate::put_byte(out, behind, b);
    }
    behind
}

// Bytes of two digits each, so many times.
fn times(out: &mut [u8], at: usize, n: u64, s: &[u8]) -> usize
    ensures { Puts (specs.times n (specs.pairs s.now)) at out.old result out.new }
{
    let mut behind = at;
    for _ in 0..n {
        behind = pairs(out, behind, s);
    }
    behind
}

// Bytes, and behind * how often.
fn repeated(out: &mut [u8], at: usize, s: &[u8]) -> usize
    ensures { Puts (specs.repeated s.now) at out.old result out.new }
{
    let piece = field(s, b'*', 0);
    if count(s, b'*') == 0 {
        return times(out, at, 1, piece);
    }
    let n = number(field(s, b'*', 1));
    times(out, at, n, piece)
}

// The bytes that a field lists, as 0709+00*96: from a place on, and the place behind them.
pub fn bytes(out: &mut [u8], at: usize, s: &[u8]) -> usize
    ensures { Puts (specs.listed s.now) at out.old result out.new }
{
    let mut behind = at;
    for piece in s.split(|b| *b == b'+') {
        behind = repeated(out, behind, piece);
    }
    behind
}
