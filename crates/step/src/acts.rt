// What a step does on the channel's arrays (document 01, "One step"): the search for the winner, the grant and the line rule
// after it, the release without a request, the idle step, and the owner's cycle. After a cycle and after a release the line
// rule has nothing to do.
ghost use Rattle.std.specs.Prelude.{◌≡◌, ◌+◌, ◌≤◌, ◌<◌, ltb};
ghost use Rattle.basics.specs.Limits.{places, clock_limit};
ghost use Rattle.channel.specs.Channel.{request_of, with_request};
ghost use Rattle.act.specs.Cycle.{cycle_bytes};
ghost use Rattle.act.specs.Turn.{arbitration_time};
ghost use Rattle.step.specs.Step.{Way};
ghost use Rattle.step.specs.inner.Machine.{standing_of, marked, channel_of, ever_by};
ghost use Rattle.step.specs.inner.Machine.{waits_from, others_from, Search, IsChosen};
ghost use Rattle.step.specs.inner.Machine.{full_acted, granted_by, rest_acted, standing_after, stay_of, cycle_acted, cycle_decided, cycle_marks};
ghost use Rattle.step.specs.inner.Machine.{Actable, decided_of, decided_marks};

use crate::cycles::{after_cycle, carry_of, cycle_bytes};
use crate::{Carry, NO_CARRY};
use act::{CycleEntry, Ending, Entry, Route};
use basics::{CLOCK_LIMIT, PLACES, PLACES_U8};
use channel::{Channel, Phase, Request};
use refusal::Refusal;
use tally::Tally;

// What a step changes beside the channel's arrays and the stores. It stands by value while they change in place, and is put into
// the channel at the end.
#[derive(Clone, Copy)]
pub(crate) struct Standing {
    pub phase: Phase,
    pub asked: Option<u32>,
    pub clock: u32,
    pub tally: Tally,
}

// The same after a step, and its answer.
#[derive(Clone, Copy)]
pub(crate) struct Acted {
    pub standing: Standing,
    pub answer: Result<Entry, Refusal>,
}

// A step but for the marks, which it changes in place: what is left of the owner's request after it, and what it moves.
#[derive(Clone, Copy)]
pub(crate) struct Decided {
    pub acted: Acted,
    pub slot: Request,
    pub carry: Carry,
}

// Who wins an arbitration, whether the line is active after the grant, and a level below which nobody waits then.
#[derive(Clone, Copy)]
pub(crate) struct Chosen {
    pub winner: u8,
    pub active: bool,
    pub low: u8,
}

// The route of a level without a request.
pub(crate) const NO_ROUTE: Route = Route {
    width: 0,
    options: 0,
    port: 0,
    time: 0,
    base: 0,
    allowed: 0,
    start: 0,
};

// What stands beside the arrays as a step or a run begins.
pub(crate) fn standing_of(channel: &Channel, tally: Tally) -> Standing
    ensures { result ≡ standing_of channel.now tally }
{
    Standing {
        phase: channel.phase,
        asked: channel.asked,
        clock: channel.clock,
        tally,
    }
}

// What is left of a level's request, and laying it back.
pub(crate) fn request_at(channel: &Channel, level: usize) -> Request
    requires { level < places }
    ensures { result ≡ request_of channel.now level }
{
    Request {
        direction: channel.direction[level],
        space: channel.space[level],
        address: channel.address[level],
        left: channel.left[level],
        offset: channel.offset[level],
    }
}

#[tactic(auto, unfolding(channel::specs::Channel::with_request))]
pub(crate) fn put_request(channel: &mut Channel, level: usize, request: Request)
    requires { level < places }
    ensures { channel.new ≡ with_request channel.old level request }
{
    channel.direction[level] = request.direction;
    channel.space[level] = request.space;
    channel.address[level] = request.address;
    channel.left[level] = request.left;
    channel.offset[level] = request.offset;
}

// Whether the channel was ever granted, after a step: before its first grant no other step is done.
pub(crate) fn ever_by(answer: Result<Entry, Refusal>, ever: bool) -> bool
    ensures { result ≡ ever_by answer ever }
{
    match answer {
        Ok(_) => true,
        Err(_) => ever,
    }
}

// Puts what stood beside the channel into it.
pub(crate) fn settle(channel: &mut Channel, standing: Standing, ever: bool)
    ensures { channel.new ≡ channel_of standing ever channel.old }
{
    channel.phase = standing.phase;
    channel.asked = standing.asked;
    channel.ever = ever;
    channel.clock = standing.clock;
}

// A step that takes so long would pass the clock's limit.
pub(crate) fn is_full(clock: u32, time: u32) -> bool
    ensures { result ≡ ltb clock_limit (clock + time) }
{
    u64::from(CLOCK_LIMIT) < u64::from(clock) + u64::from(time)
}

// Some level from `from` on has an open request and isn't inactive.
#[tactic(auto, using(crate::proofs::SearchLaws::from_hit, crate::proofs::SearchLaws::from_miss), unfolding(crate::specs::inner::Machine::waits_from, crate::specs::inner::Machine::any_from, channel::specs::Line::waits))]
fn waits_from(channel: &Channel, from: u8) -> bool
    ensures { result ≡ waits_from channel.now.left channel.now.inactive from }
{
    for level in from as usize..PLACES {
        if (channel.left[level] != 0) & !channel.inactive[level] {
            return true;
        }
    }
    false
}

// Some level from `from` on, other than the owner, has an open request.
#[tactic(auto, using(crate::proofs::SearchLaws::from_hit, crate::proofs::SearchLaws::from_miss), unfolding(crate::specs::inner::Machine::others_from, crate::specs::inner::Machine::any_from, crate::specs::inner::Machine::asks_beside))]
fn others_from(channel: &Channel, from: u8, owner: u8) -> bool
    ensures { result ≡ others_from channel.now.left from owner }
{
    for level in from..PLACES_U8 {
        if (channel.left[level as usize] != 0) & (level != owner) {
            return true;
        }
    }
    false
}

// The winner and the line rule after its grant. No level below the winner waits, so that those above it are all there is to
// look at; where none of them does, every mark goes, and those from `base` on are all that have a request.
pub(crate) fn choose(channel: &mut Channel, base: u8, low: u8) -> Chosen
    requires { Search channel.old base low }
    ensures { IsChosen channel.old channel.new base result }
{
    let winner = channel::winner_from(&channel.left, &channel.inactive, low);
    if waits_from(channel, winner + 1) {
        return Chosen {
            winner,
            active: true,
            low: winner,
        };
    }
    channel.inactive = [false; PLACES];
    let active = others_from(channel, base, winner);
    Chosen {
        winner,
        active,
        low: base,
    }
}

// A step that the clock has no room for.
#[tactic(auto, unfolding(crate::specs::inner::Machine::full_acted))]
pub(crate) fn full_acted(standing: Standing) -> Acted
    ensures { result ≡ full_acted standing }
{
    Acted {
        standing,
        answer: Err(Refusal::ClockFull),
    }
}

// The winner is the owner, with no asked time until the line rule sets one.
#[tactic(auto, unfolding(crate::specs::inner::Machine::granted_by))]
pub(crate) fn granted_by(standing: Standing, ever: bool, chosen: Chosen) -> Acted
    requires { standing.clock + arbitration_time ever ≤ clock_limit }
    ensures { result ≡ granted_by standing ever chosen.winner chosen.active }
{
    let clock = standing.clock + act::arbitration_time(ever);
    let next = Standing {
        phase: Phase::Granted(chosen.winner),
        asked: channel::asked_if(chosen.active, clock),
        clock,
        tally: tally::add_grant(standing.tally),
    };
    Acted {
        standing: next,
        answer: Ok(Entry::Grant(clock, chosen.winner)),
    }
}

// An owner without a request leaves where it is asked, and idles otherwise: the line is active exactly when there is an
// asked time.
pub(crate) fn rest_acted(standing: Standing, owner: u8) -> Acted
    ensures { result ≡ rest_acted standing.asked standing owner }
{
    match standing.asked {
        None => Acted {
            standing,
            answer: Ok(Entry::Idle(standing.clock)),
        },
        Some(t) => {
            let hold = Some(basics::less(standing.clock, t));
            let next = Standing {
                phase: Phase::Arbitrating,
                asked: None,
                clock: standing.clock,
                tally: tally::add_release(standing.tally, hold),
            };
            Acted {
                standing: next,
                answer: Ok(Entry::Release(standing.clock, owner, hold)),
            }
        }
    }
}

// What stands after a cycle with this ending.
#[tactic(auto, unfolding(crate::specs::inner::Machine::standing_after))]
pub(crate) fn standing_after(
    standing: Standing,
    clock: u32,
    tally: Tally,
    ending: Ending,
) -> Standing
    ensures { result ≡ standing_after standing clock tally ending }
{
    if act::is_kept(ending) {
        return Standing {
            phase: standing.phase,
            asked: standing.asked,
            clock,
            tally,
        };
    }
    Standing {
        phase: Phase::Arbitrating,
        asked: None,
        clock,
        tally,
    }
}

// A cycle with this ending, and its entry.
#[tactic(auto, unfolding(crate::specs::inner::Machine::cycle_acted))]
fn cycle_acted(
    route: Route,
    standing: Standing,
    owner: u8,
    request: Request,
    bytes: u32,
    ending: Ending,
) -> Acted
    requires bytes_value { bytes ≡ cycle_bytes route request }
    requires time_bound { standing.clock + route.time ≤ clock_limit }
    ensures { result ≡ cycle_acted route standing owner request ending }
{
    let clock = standing.clock + route.time;
    let entry = CycleEntry {
        clock,
        level: owner,
        address: request.address,
        bytes,
        direction: request.direction,
        master_lane: cycle::master_lane(route.width, request.address),
        slave_lane: cycle::slave_lane(route.port, request.address),
        ending,
    };
    let tally = tally::add_cycle(standing.tally, bytes, ending);
    Acted {
        standing: standing_after(standing, clock, tally, ending),
        answer: Ok(Entry::Cycle(entry)),
    }
}

// A step that moves nothing and leaves the owner's slot.
fn stay(acted: Acted, request: Request) -> Decided
    ensures { result ≡ stay_of acted request }
{
    Decided {
        acted,
        slot: request,
        carry: NO_CARRY,
    }
}

// One cycle of the owner's request.
#[tactic(auto, unfolding(crate::specs::inner::Machine::cycle_decided, crate::specs::inner::Machine::cycle_marks, crate::specs::inner::Machine::after_cycle))]
fn cycle_decided(
    route: Route,
    standing: Standing,
    owner: u8,
    request: Request,
    channel: &mut Channel,
) -> Decided
    requires owner_lt_places { owner < places }
    requires time_bound { standing.clock + route.time ≤ clock_limit }
    requires way { Way route request }
    ensures value { result ≡ cycle_decided route standing owner request }
    ensures channel_after { channel.new ≡ marked channel.old (cycle_marks route standing owner request channel.old.inactive) }
{
    let bytes = cycle_bytes(route, request);
    let after = after_cycle(
        route,
        standing.asked,
        standing.clock + route.time,
        request,
        bytes,
    );
    channel.inactive[owner as usize] = act::is_marked(after.ending);
    Decided {
        acted: cycle_acted(route, standing, owner, request, bytes, after.ending),
        slot: after.rest,
        carry: carry_of(route, request, bytes),
    }
}

// The step of a sound channel, by what is left of the owner's request and the route of it.
pub(crate) fn act_on(
    route: Route,
    standing: Standing,
    ever: bool,
    request: Request,
    channel: &mut Channel,
) -> Decided
    requires { Actable route standing request }
    ensures value { result ≡ decided_of route standing ever request channel.old.left channel.old.inactive }
    ensures channel_after { channel.new ≡ marked channel.old (decided_marks route standing ever request channel.old.left
        channel.old.inactive) }
{
    match standing.phase {
        Phase::Arbitrating => {
            if is_full(standing.clock, act::arbitration_time(ever)) {
                return stay(full_acted(standing), request);
            }
            let chosen = choose(channel, 0, 0);
            stay(granted_by(standing, ever, chosen), request)
        }
        Phase::Granted(owner) => {
            if request.left == 0 {
                return stay(rest_acted(standing, owner), request);
            }
            if is_full(standing.clock, route.time) {
                return stay(full_acted(standing), request);
            }
            cycle_decided(route, standing, owner, request, channel)
        }
    }
}
