// The capture decoder: reads a whole capture of the serial line, at most 65,536 bytes, from standard input and prints a line for each event,
// its offset first, then `end`.
#![tactic(auto)]

use std::io;

fn main(rt: HostRuntime) -> io::Result<()> {
    decoding::decode_all(&rt)
}
