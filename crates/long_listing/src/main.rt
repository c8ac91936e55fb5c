// A long capture through the line lister: several reads, which cut frames, and several buffers of output. bench/line/long.py makes it.
#![tactic(auto)]

use std::io;

fn main(rt: HostRuntime) -> io::Result<()> {
    listing::list_all(&rt)
}
