// Standard input for the programs: a buffer filled from it, and the lines in it.
#![tactic(auto)]

ghost use Rattle.std.specs.Prelude.{◌≡◌, ◌≤◌, ◌<◌, ◌∷◌, [], IfOk, MatchOption, Ok, length, position, replicate, take, ◌==◌};
ghost use Rattle.std.specs.Fn.{CalledAt};
ghost use Rattle.std.specs.List.{FoldsTo};
ghost use Rattle.console.specs.Lines.{lines};

use std::io;
use std::io::Read;

// Reads until the buffer is full or standard input ends; the answer is how many bytes were put at the buffer's front.
pub fn read_full<R: Input>(rt: &R, buf: &mut [u8]) -> io::Result<usize>
    ensures { IfOk result (λ n. n ≤ length buf.new) }
{
    let mut reader = rt.reader();
    let mut done: usize = 0;
    // A proved loop has to end, and nothing shows that the input does: it has as many turns as no run uses up.
    for _ in 0..u64::MAX {
        let n = reader.read(&mut buf[done..])?;
        if n == 0 {
            return Ok(done);
        }
        done += n;
    }
    Ok(done)
}

// 65,536 zeros.
pub fn large_buffer() -> [u8; 65536]
    ensures { result ≡ replicate 65536 0 }
{
    [0; 65536]
}

// The first n bytes, none where there are fewer.
pub fn front(s: &[u8], n: usize) -> &[u8]
    ensures front { n ≤ length s.now → result.now ≡ take n s.now }
    ensures none { length s.now < n → result.now ≡ [] }
{
    s.get(..n).unwrap_or(&[])
}

// Where the first newline stands.
fn line_end(s: &[u8]) -> Option<usize>
    ensures { result ≡ position (λ b. b == 10) s.now }
{
    s.iter().position(|b| *b == b'\n')
}

// The first line of a text, without its newline, and the text behind it. Bytes behind the last newline are no line.
fn split_line(s: &[u8]) -> Option<(&[u8], &[u8])>
    ensures { MatchOption result (lines s.now ≡ []) (λ x. (lines s.now ≡ x.0.now ∷ lines x.1.now) × (length x.1.now < length s.now)) }
{
    match line_end(s) {
        Some(end) => Some((&s[..end], &s[end + 1..])),
        None => None,
    }
}

// Calls f with each line of a text, up to the first error.
fn each_line<F: FnMut(&[u8]) -> io::Result<()>>(s: &[u8], mut f: F) -> io::Result<()>
    requires { F.IsAlwaysCallable f }
    ensures { IfOk result (λ done. (last : F) × FoldsTo (λ p x q. CalledAt F.FnMut p x (Ok done) q) f (lines s.now) last) }
{
    let mut rest = s;
    // Not a `for` over the library's split: what Rattle writes for that loop in a generic function does not check.
    while let Some((line, behind)) = split_line(rest) {
        f(line)?;
        rest = behind;
    }
    Ok(())
}

// Fills the room from standard input, and calls f with each line in it, up to the first error.
pub fn for_each_line<R: Input, F: FnMut(&[u8]) -> io::Result<()>>(
    rt: &R,
    room: &mut [u8],
    f: F,
) -> io::Result<()>
    requires { F.IsAlwaysCallable f }
    ensures room { length room.new ≡ length room.old }
    ensures calls { IfOk result (λ done. (n : _) × (last : F) × (n ≤ length room.new) × FoldsTo (λ p x q. CalledAt F.FnMut p x (Ok done) q) f (lines (take n room.new)) last) }
{
    let n = read_full(rt, room)?;
    each_line(&room[..n], f)
}
