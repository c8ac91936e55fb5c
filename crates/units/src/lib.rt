// Times: session timeouts and times to live count minutes; heartbeat timeouts, the clock and uptimes count seconds. Nothing here converts.
#![tactic(auto)]

#[derive(Clone, Copy)]
pub struct Minutes(pub u64);

#[derive(Clone, Copy)]
pub struct Seconds(pub u64);
