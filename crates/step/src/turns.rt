// How a run goes on: in turns, each a grant, a release, an idle step, or all cycles of one owner, which are looped over in
// scalars. Set-up and channel are tested once, as every step keeps the channel sound. The routes of the open requests are
// looked up once: none is posted during a run, and what is left of a request goes the way of the whole.
ghost use Rattle.std.specs.Prelude.{◌≡◌, ◌+◌, ◌-◌, ◌≤◌, ◌<◌, true, false, length};
ghost use Rattle.basics.specs.Limits.{places, system_master, clock_limit, steps_most};
ghost use Rattle.channel.specs.Channel.{request_of, Shaped};
ghost use Rattle.channel.specs.Line.{is_inactive};
ghost use Rattle.act.specs.Cycle.{cycle_bytes};
ghost use Rattle.step.specs.Step.{Ready, Way, Roomy};
ghost use Rattle.step.specs.Run.{world, run_from};
ghost use Rattle.step.specs.inner.Machine.{NoneAsk, Search, channel_of};
ghost use Rattle.step.specs.inner.Turns.{cycle_on, filled, held, AreRoutes, stepped_on, Begun, cycles_run, Lows, Turnable, running_of, turn_of, verdict_of};

use crate::Ran;
use crate::acts::{
    Acted, NO_ROUTE, Standing, choose, granted_by, is_full, put_request, request_at, rest_acted,
    settle, standing_after, standing_of,
};
use crate::cycles::{after_cycle, carry, carry_of, cycle_bytes};
use act::{Ending, Route};
use basics::{PLACES, SYSTEM_MASTER};
use channel::{Channel, Phase, Request};
use frame::Setup;
use refusal::Refusal;
use tally::Tally;

// A run: what stands after its last turn, the steps done, whether the next one would pass the clock's limit, and a level
// below which nobody waits.
#[derive(Clone, Copy)]
struct State {
    standing: Standing,
    done: u32,
    full: bool,
    low: u8,
}

// An owner's cycles: the clock, what is left of its request, the tally, the steps done, and how the last cycle ended.
#[derive(Clone, Copy)]
struct Tenure {
    clock: u32,
    request: Request,
    tally: Tally,
    done: u32,
    ending: Ending,
    full: bool,
}

// One cycle more of an owner.
#[tactic(auto, unfolding(crate::specs::inner::Turns::cycle_on, crate::specs::inner::Machine::after_cycle))]
fn cycle_on(route: Route, asked: Option<u32>, tenure: Tenure, bytes: u32) -> Tenure
    requires way { Way route tenure.request }
    requires bytes_value { bytes ≡ cycle_bytes route tenure.request }
    requires time_bound { tenure.clock + route.time ≤ clock_limit }
    requires done_lt_steps_most { tenure.done < steps_most }
    ensures { result ≡ cycle_on route asked tenure }
{
    let clock = tenure.clock + route.time;
    let after = after_cycle(route, asked, clock, tenure.request, bytes);
    Tenure {
        clock,
        request: after.rest,
        tally: tally::add_cycle(tenure.tally, bytes, after.ending),
        done: tenure.done + 1,
        ending: after.ending,
        full: false,
    }
}

// The clock has no room for another.
#[tactic(auto, unfolding(crate::specs::inner::Turns::filled))]
fn fill(tenure: Tenure) -> Tenure
    ensures { result ≡ filled tenure }
{
    Tenure {
        ending: Ending::Kept,
        full: true,
        ..tenure
    }
}

// Cycles of one owner, until it releases the channel, the clock is full or the budget is used up.
fn hold_channel(
    route: Route,
    asked: Option<u32>,
    from: Tenure,
    slave: &mut [u8],
    master: &mut [u8],
    budget: u32,
) -> Tenure
    requires roomy { Roomy route from.request (length slave.old) (length master.old) }
    requires clock_le_clock_limit { from.clock ≤ clock_limit }
    requires budget_le_steps_most { budget ≤ steps_most }
    ensures value { result ≡ (held route asked (budget - from.done) from slave.old master.old).tenure }
    ensures slave_after { slave.new ≡ (held route asked (budget - from.done) from slave.old master.old).slave }
    ensures master_after { master.new ≡ (held route asked (budget - from.done) from slave.old master.old).master }
{
    let mut tenure = from;
    while tenure.done < budget {
        if is_full(tenure.clock, route.time) {
            return fill(tenure);
        }
        let request = tenure.request;
        let bytes = cycle_bytes(route, request);
        carry(carry_of(route, request, bytes), slave, master);
        tenure = cycle_on(route, asked, tenure, bytes);
        if !act::is_kept(tenure.ending) {
            return tenure;
        }
    }
    tenure
}

// A turn of one step.
fn stepped_on(acted: Acted, done: u32, low: u8) -> State
    requires { done < steps_most }
    ensures { result ≡ stepped_on acted done low }
{
    State {
        standing: acted.standing,
        done: done + 1,
        full: false,
        low,
    }
}

// Where the turns of a run begin: a channel that was never granted takes its first grant by itself, so that no turn has to ask.
#[tactic(auto, unfolding(act::specs::Turn::arbitration_time))]
fn begin(standing: Standing, ever: bool, base: u8, channel: &mut Channel) -> State
    requires search { Search channel.old base base }
    requires clock_value { ever ≡ false → standing.clock ≡ 0 }
    ensures { Begun standing ever base channel.old channel.new result }
{
    if ever {
        return State {
            standing,
            done: 0,
            full: false,
            low: base,
        };
    }
    let chosen = choose(channel, base, base);
    stepped_on(granted_by(standing, ever, chosen), 0, chosen.low)
}

// The owner's cycles, on the lent channel.
fn run_cycles(
    route: Route,
    at: usize,
    state: State,
    request: Request,
    channel: &mut Channel,
    slave: &mut [u8],
    master: &mut [u8],
    budget: u32,
) -> State
    requires at_lt_places { at < places }
    requires phase_value { state.standing.phase ≡ Phase.Granted at }
    requires at_value { is_inactive channel.old.inactive at ≡ false }
    requires request_value { request ≡ request_of channel.old at }
    requires roomy { Roomy route request (length slave.old) (length master.old) }
    requires clock_le_clock_limit { state.standing.clock ≤ clock_limit }
    requires budget_le_steps_most { budget ≤ steps_most }
    ensures master_after { running_of result true channel.new slave.new master.new
        ≡ cycles_run route budget at (running_of state true channel.old slave.old master.old) }
    ensures low_value { result.low ≡ state.low }
{
    let standing = state.standing;
    let from = Tenure {
        clock: standing.clock,
        request,
        tally: standing.tally,
        done: state.done,
        ending: Ending::Kept,
        full: false,
    };
    let tenure = hold_channel(route, standing.asked, from, slave, master, budget);
    let ending = tenure.ending;
    put_request(channel, at, tenure.request);
    channel.inactive[at] = act::is_marked(ending);
    State {
        standing: standing_after(standing, tenure.clock, tenure.tally, ending),
        done: tenure.done,
        full: tenure.full,
        low: state.low,
    }
}

// One turn.
fn turn(
    route: Route,
    base: u8,
    state: State,
    channel: &mut Channel,
    slave: &mut [u8],
    master: &mut [u8],
    budget: u32,
) -> State
    requires { Turnable route base state.low budget (running_of state true channel.old slave.old master.old) }
    ensures master_after { running_of result true channel.new slave.new master.new
        ≡ turn_of route budget (running_of state true channel.old slave.old master.old) }
    ensures lows { Lows base result.low (channel_of result.standing true channel.new) }
{
    let standing = state.standing;
    match standing.phase {
        Phase::Arbitrating => {
            if is_full(standing.clock, act::arbitration_time(true)) {
                return State {
                    full: true,
                    ..state
                };
            }
            let chosen = choose(channel, base, state.low);
            stepped_on(granted_by(standing, true, chosen), state.done, chosen.low)
        }
        Phase::Granted(owner) => {
            let at = owner as usize;
            let request = request_at(channel, at);
            if request.left == 0 {
                return stepped_on(rest_acted(standing, owner), state.done, state.low);
            }
            run_cycles(route, at, state, request, channel, slave, master, budget)
        }
    }
}

// The lowest level with an open request, and 15 at the most.
fn lowest(channel: &Channel) -> u8
    ensures { (result ≤ system_master) × NoneAsk channel.now.left result }
{
    for level in 0..SYSTEM_MASTER {
        if channel.left[level as usize] != 0 {
            return level;
        }
    }
    SYSTEM_MASTER
}

// The routes of the open requests, by level.
pub(crate) fn routes_of(setup: &Setup, channel: &Channel) -> [Route; PLACES]
    ensures { AreRoutes setup.now (request_of channel.now) result places }
{
    let mut routes = [NO_ROUTE; PLACES];
    for level in 0..PLACES {
        if channel.left[level] != 0 {
            routes[level] = act::route_of(*setup, level as u32, request_at(channel, level));
        }
    }
    routes
}

pub(crate) fn verdict_of(full: bool) -> Result<(), Refusal>
    ensures { result ≡ verdict_of full }
{
    if full {
        return Err(Refusal::ClockFull);
    }
    Ok(())
}

// Up to `budget` steps of a sound channel over stores of the right lengths. Kept out of its callers: its loop needs the registers.
#[inline(never)]
pub(crate) fn run_steps(
    setup: &Setup,
    channel: &Channel,
    tally: Tally,
    slave: &mut [u8],
    master: &mut [u8],
    budget: u32,
) -> Ran
    requires ready { Ready setup.now channel.now (length slave.old) (length master.old) }
    requires shaped { Shaped channel.now }
    requires budget_le_steps_most { budget ≤ steps_most }
    requires budget_nonzero { 0 < budget }
    ensures value { result ≡ (run_from setup.now budget 0 (world channel.now tally slave.old master.old)).result }
    ensures slave_after { slave.new ≡ (run_from setup.now budget 0 (world channel.now tally slave.old master.old)).slave }
    ensures master_after { master.new ≡ (run_from setup.now budget 0 (world channel.now tally slave.old master.old)).master }
{
    let routes = routes_of(setup, channel);
    let base = lowest(channel);
    let mut next = *channel;
    let mut state = begin(standing_of(channel, tally), channel.ever, base, &mut next);
    while (state.done < budget) & !state.full {
        let at = channel::owner_place(state.standing.phase);
        state = turn(routes[at], base, state, &mut next, slave, master, budget);
    }
    settle(&mut next, state.standing, true);
    Ran {
        channel: next,
        tally: state.standing.tally,
        steps: state.done,
        verdict: verdict_of(state.full),
    }
}
