// The line lister: reads a capture of the serial line from standard input and prints `frame TYPE LENGTH` or `refused N PLACE` for each event,
// then `end`.
#![tactic(auto)]

use std::io;

fn main(rt: HostRuntime) -> io::Result<()> {
    listing::list_all(&rt)
}
