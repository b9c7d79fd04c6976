// A run that logs: step by step, each with its line in a lent buffer, for as long as the longest line has room there. Set-up and
// channel are tested once and the routes are looked up once, as in a run; a step is decided and carried as the single step is.
ghost use Rattle.std.specs.Prelude.{◌≡◌, ◌||◌, ◌≤◌, length, ltb};
ghost use Rattle.basics.specs.Limits.{steps_most};
ghost use Rattle.channel.specs.Channel.{Shaped, owner_place};
ghost use Rattle.step.specs.Step.{Ready};
ghost use Rattle.step.specs.Run.{world};
ghost use Rattle.step.specs.Log.{page, log_from};
ghost use Rattle.step.specs.inner.Turns.{running_by, logging_of, log_step, Loggable};

use crate::acts::{Standing, act_on, put_request, request_at, settle, standing_of};
use crate::cycles::carry;
use crate::turns::{routes_of, verdict_of};
use crate::{Logged, Ran};
use act::Route;
use channel::Channel;
use frame::Setup;
use tally::Tally;

// A logged run: what stands after its last step, the steps done, whether the next one would pass the clock's limit, and where
// the next line goes.
#[derive(Clone, Copy)]
struct Log {
    standing: Standing,
    done: u32,
    full: bool,
    at: usize,
}

// One step, and its line. The channel was granted before the run (`first`), or by a step that was done in it.
fn log_step(
    route: Route,
    place: usize,
    first: bool,
    log: Log,
    channel: &mut Channel,
    slave: &mut [u8],
    master: &mut [u8],
    out: &mut [u8],
) -> Log
    requires place_value { place ≡ owner_place log.standing.phase }
    requires loggable { Loggable route (running_by log.standing (ltb 0 log.done || first) log.done log.full channel.old
        slave.old master.old) }
    ensures { logging_of result first channel.new slave.new master.new out.new
        ≡ log_step route (logging_of log first channel.old slave.old master.old out.old) }
{
    let request = request_at(channel, place);
    let ever = (0 < log.done) | first;
    let decided = act_on(route, log.standing, ever, request, channel);
    put_request(channel, place, decided.slot);
    carry(decided.carry, slave, master);
    let acted = decided.acted;
    let Ok(entry) = acted.answer else {
        return Log {
            standing: acted.standing,
            full: true,
            ..log
        };
    };
    let end = logline::put_entry(out, log.at, entry);
    Log {
        standing: acted.standing,
        done: log.done + 1,
        full: false,
        at: end,
    }
}

// Up to `budget` steps of a sound channel over stores of the right lengths, with their lines from `at` on.
pub(crate) fn log_steps(
    setup: &Setup,
    channel: &Channel,
    tally: Tally,
    slave: &mut [u8],
    master: &mut [u8],
    out: &mut [u8],
    at: usize,
    budget: u32,
) -> Logged
    requires ready { Ready setup.now channel.now (length slave.old) (length master.old) }
    requires shaped { Shaped channel.now }
    requires budget_le_steps_most { budget ≤ steps_most }
    ensures value { result ≡ (log_from setup.now budget 0 (world channel.now tally slave.old master.old)
        (page out.old at)).result }
    ensures slave_after { slave.new ≡ (log_from setup.now budget 0 (world channel.now tally slave.old master.old)
        (page out.old at)).slave }
    ensures master_after { master.new ≡ (log_from setup.now budget 0 (world channel.now tally slave.old master.old)
        (page out.old at)).master }
    ensures out_after { out.new ≡ (log_from setup.now budget 0 (world channel.now tally slave.old master.old)
        (page out.old at)).out }
{
    let routes = routes_of(setup, channel);
    let mut log = Log {
        standing: standing_of(channel, tally),
        done: 0,
        full: false,
        at,
    };
    let first = channel.ever;
    let mut next = *channel;
    while (log.done < budget) & !log.full & logline::has_room(out.len(), log.at) {
        let place = channel::owner_place(log.standing.phase);
        log = log_step(
            routes[place],
            place,
            first,
            log,
            &mut next,
            slave,
            master,
            out,
        );
    }
    settle(&mut next, log.standing, (0 < log.done) | first);
    let ran = Ran {
        channel: next,
        tally: log.standing.tally,
        steps: log.done,
        verdict: verdict_of(log.full),
    };
    Logged { ran, end: log.at }
}
