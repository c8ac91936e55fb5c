// The sample capture through the line lister.
#![tactic(auto)]

use std::io;

fn main(rt: HostRuntime) -> io::Result<()> {
    listing::list_all(&rt)
}
