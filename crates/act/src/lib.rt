// The decisions of a step (document 01, "One step"): where a request's bytes go, whether the owner releases at the end of a
// transfer and is marked, how long an arbitration takes. Log entries are declared here.
#![tactic(auto)]

ghost use Rattle.std.specs.Prelude.{◌≡◌};
ghost use Rattle.act.specs.Cycle.{route_of, released_by, is_kept, is_marked};
ghost use Rattle.act.specs.Turn.{arbitration_time};

use channel::Request;
use frame::{NO_SLAVE, Setup};

// Where the owner's bytes go: what its row and the slave's say, how long after its asked time an owner's transfers may go on,
// and where the slave row's bytes start in the slave store (last, so that no room is left between the fields).
#[derive(Clone, Copy)]
pub struct Route {
    pub width: u32,
    pub options: u32,
    pub port: u32,
    pub time: u32,
    pub base: u32,
    pub allowed: u32,
    pub start: usize,
}

// How a cycle ends: the owner keeps the channel, releases it, or releases it and is marked inactive.
#[derive(Clone, Copy)]
pub enum Ending {
    Kept,
    Released(Option<u32>),
    Marked(u32),
}

#[derive(Clone, Copy)]
pub struct CycleEntry {
    pub clock: u32,
    pub level: u8,
    pub address: u32,
    pub bytes: u32,
    pub direction: u32,
    pub master_lane: u32,
    pub slave_lane: u32,
    pub ending: Ending,
}

// A log entry: what the step's log line shows, and the hold at a release.
#[derive(Clone, Copy)]
pub enum Entry {
    Idle(u32),
    Grant(u32, u8),
    Cycle(CycleEntry),
    Release(u32, u8, Option<u32>),
}

// The route of a level's request: one search finds the slave row and where its bytes start.
#[tactic(auto, unfolding(crate::specs::Cycle::route_of, channel::specs::Slave::slave_of, channel::specs::Slave::start_of))]
pub fn route_of(setup: Setup, owner: u32, request: Request) -> Route
    ensures { result ≡ route_of setup owner request }
{
    let row = frame::level_of(setup.levels, owner);
    let found = frame::slave_row(setup.slaves, request.space, request.address, request.left);
    let (slave, start) = found.unwrap_or((NO_SLAVE, 0));
    Route {
        width: row.width,
        options: row.options,
        port: slave.port,
        time: slave.time,
        base: slave.base,
        allowed: frame::allowance_of(setup),
        start,
    }
}

// A releasing owner that is fair, with an asked time, is marked. The options are the row's number, of which any may be handed in.
pub fn released_by(options: u32, asked: Option<u32>, clock: u32) -> Ending
    ensures { result ≡ released_by options asked clock }
{
    match asked {
        None => Ending::Released(None),
        Some(t) => {
            let hold = basics::less(clock, t);
            if frame::is_fair(options) {
                return Ending::Marked(hold);
            }
            Ending::Released(Some(hold))
        }
    }
}

// The owner keeps the channel.
pub fn is_kept(ending: Ending) -> bool
    ensures { result ≡ is_kept ending }
{
    matches!(ending, Ending::Kept)
}

// The owner is marked inactive.
pub fn is_marked(ending: Ending) -> bool
    ensures { result ≡ is_marked ending }
{
    matches!(ending, Ending::Marked(_))
}

// How long an arbitration takes: the first after set-up 100 ns, and 30 more once the channel has been granted.
pub fn arbitration_time(ever: bool) -> u32
    ensures { result ≡ arbitration_time ever }
{
    if ever { 130 } else { 100 }
}
