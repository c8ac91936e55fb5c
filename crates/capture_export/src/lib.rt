// The capture decoder, and the line lister over bytes in memory, for programs in other languages.
#![tactic(auto)]

ghost use Rattle.capture_export.specs.Exported.{answer_numbers, DecodesInto, ListsFront};
ghost use Rattle.std.specs.Prelude.{◌≡◌};

use capture::Counts;
use wire::Refusal;

// An answer as three numbers: the refusal's or 0, then how many entries and how many payload bytes.
fn answer_numbers(decoded: Result<Counts, Refusal>) -> [u64; 3]
    ensures { result ≡ answer_numbers decoded }
{
    match decoded {
        Ok(Counts { entries, bytes }) => [0, entries as u64, bytes as u64],
        Err(refusal) => [u64::from(refusal.number()), 0, 0],
    }
}

// `capture::decode`, with its answer as three numbers.
#[unsafe(no_mangle)]
pub extern "C" fn cloudgraze_decode_capture(
    capture: &[u8],
    list: &mut [u64],
    buffer: &mut [u8],
    answer: &mut [u64; 3],
)
    ensures { DecodesInto capture.now list.old buffer.old answer.new list.new buffer.new }
{
    *answer = answer_numbers(capture::decode(capture, list, buffer));
}

// The lister's lines of a capture, to a fresh receiver, at the front of `out`; the answer is where they end.
#[unsafe(no_mangle)]
pub extern "C" fn cloudgraze_list_capture(capture: &[u8], out: &mut [u8]) -> usize
    ensures { ListsFront capture.now out.old result out.new }
{
    let fresh = line::fresh();
    let mut store = fresh.store;
    let l = listing::list_some(fresh.progress, &mut store, capture, 0, out);
    l.at
}
