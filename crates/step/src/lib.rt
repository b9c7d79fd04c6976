// One step of the channel and a run of them (document 01, "One step"): the plan, which says without a look at the bytes what a
// step does; the decision, which is the whole step but for its bytes; the step, which is the decision and its carrying; the
// run. All change one copy of the channel in place: a channel passed on by value is copied each time.
// `acts` has what a step does, `cycles` one cycle of an owner, `turns` how a run goes on.
#![tactic(auto)]

mod acts;
mod cycles;
mod logs;
mod turns;

ghost use Rattle.std.specs.Prelude.{◌≡◌, ◌<◌, length};
ghost use Rattle.refusal.specs.Refusal.{accepted};
ghost use Rattle.basics.specs.Limits.{places};
ghost use Rattle.frame.specs.Find.{slave_store_length};
ghost use Rattle.channel.specs.Channel.{Shaped};
ghost use Rattle.step.specs.Plan.{act_plan, ready_verdict, plan_by, plan_of};
ghost use Rattle.step.specs.Step.{Ready, step_of, slave_after, master_after, decision_of, carry_fits, slave_after_carry, master_after_carry};
ghost use Rattle.step.specs.Run.{world, run_by, run_of};
ghost use Rattle.step.specs.Log.{page, log_by, log_run_of};
ghost use Rattle.step.specs.inner.Machine.{route_for, plan_in, decision_by, refused_decision, no_steps, no_lines};

use act::{Entry, Route};
use acts::{NO_ROUTE, act_on, ever_by, put_request, request_at, settle, standing_of};
use basics::STEPS_MOST;
use channel::{Channel, Request};
use cycles::carry;
use frame::Setup;
use logs::log_steps;
use refusal::Refusal;
use tally::Tally;
use turns::run_steps;

// What a step is going to do.
#[derive(Clone, Copy)]
pub enum Plan {
    Idle,
    Refused(Refusal),
    Grant(u8),
    Leave(u8),
    Cycle(u8),
}

// The channel and the tally after a step, and its entry or why it was refused.
#[derive(Clone, Copy)]
pub struct Stepped {
    pub channel: Channel,
    pub tally: Tally,
    pub answer: Result<Entry, Refusal>,
}

// What a step moves: `bytes` bytes between a place in the slave store and an offset in the master store, to the master where
// the direction is 0. Any number may be handed in as the direction, and is taken for the other way.
#[derive(Clone, Copy)]
pub struct Carry {
    pub direction: u32,
    pub place: usize,
    pub offset: usize,
    pub bytes: usize,
}

// What a step moves that moves nothing.
const NO_CARRY: Carry = Carry {
    direction: 0,
    place: 0,
    offset: 0,
    bytes: 0,
};

// A step before its bytes are moved.
#[derive(Clone, Copy)]
pub struct Decision {
    pub stepped: Stepped,
    pub carry: Carry,
}

// The channel and the tally after a run, the steps done, and why it was refused or stopped, if it was.
#[derive(Clone, Copy)]
pub struct Ran {
    pub channel: Channel,
    pub tally: Tally,
    pub steps: u32,
    pub verdict: Result<(), Refusal>,
}

// A logged run, and where its lines end.
#[derive(Clone, Copy)]
pub struct Logged {
    pub ran: Ran,
    pub end: usize,
}

// Refusals 9 and 8, which a step and a run share.
#[tactic(auto, using(basics::proofs::Tests::tests), unfolding(crate::specs::Plan::ready_verdict, sound::specs::Sound::sound_store, frame::specs::Find::framed_store))]
pub fn ready_verdict(
    setup: Setup,
    channel: Channel,
    slave: usize,
    master: usize,
) -> Result<(), Refusal>
    ensures { result ≡ ready_verdict setup channel slave master }
{
    let length = sound::sound_store(setup, channel).ok_or(Refusal::Unsound)?;
    if !((slave == length) & (master == setup.master as usize)) {
        return Err(Refusal::StoreLength);
    }
    Ok(())
}

// The route of what is left of a level's request; without one there is none.
fn route_for(setup: &Setup, at: usize, request: Request) -> Route
    requires { at < places }
    ensures { result ≡ route_for setup.now at request }
{
    if request.left == 0 {
        return NO_ROUTE;
    }
    act::route_of(*setup, at as u32, request)
}

// The decision on a sound channel, over stores of the right lengths.
fn decide_ready(setup: &Setup, channel: &Channel, tally: Tally) -> Decision
    requires ready { Ready setup.now channel.now (slave_store_length setup.now.slaves) setup.now.master }
    requires shaped { Shaped channel.now }
    ensures { result ≡ decision_by setup.now channel.now tally (act_plan setup.now channel.now) }
{
    // all is read from the copy, so that the one that was lent need not be kept
    let mut next = *channel;
    let at = channel::owner_place(next.phase);
    let request = request_at(&next, at);
    let route = route_for(setup, at, request);
    let standing = standing_of(&next, tally);
    let ever = next.ever;
    let decided = act_on(route, standing, ever, request, &mut next);
    put_request(&mut next, at, decided.slot);
    let acted = decided.acted;
    settle(&mut next, acted.standing, ever_by(acted.answer, ever));
    Decision {
        stepped: Stepped {
            channel: next,
            tally: acted.standing.tally,
            answer: acted.answer,
        },
        carry: decided.carry,
    }
}

// A refused step gives back the channel and the tally that it got, and moves nothing.
fn refused_decision(channel: &Channel, tally: Tally, why: Refusal) -> Decision
    ensures { result ≡ refused_decision channel.now tally why }
{
    Decision {
        stepped: Stepped {
            channel: *channel,
            tally,
            answer: Err(why),
        },
        carry: NO_CARRY,
    }
}

// The decision by the verdict of refusals 9 and 8: then refusal 6, or what the step does.
fn decide(verdict: Result<(), Refusal>, setup: &Setup, channel: &Channel, tally: Tally) -> Decision
    requires ready { verdict ≡ accepted → Ready setup.now channel.now (slave_store_length setup.now.slaves) setup.now.master }
    requires shaped { Shaped channel.now }
    ensures { result ≡ decision_by setup.now channel.now tally (plan_by setup.now channel.now verdict) }
{
    match verdict {
        Err(why) => refused_decision(channel, tally, why),
        Ok(()) => decide_ready(setup, channel, tally),
    }
}

// What a step does, read off its answer. No From: of the two one goes up by `?`, and the other is handed out.
fn plan_in(answer: Result<Entry, Refusal>) -> Plan
    ensures { result ≡ plan_in answer }
{
    match answer {
        Err(why) => Plan::Refused(why),
        Ok(entry) => match entry {
            Entry::Idle(_) => Plan::Idle,
            Entry::Grant(_, winner) => Plan::Grant(winner),
            Entry::Cycle(cycle) => Plan::Cycle(cycle.level),
            Entry::Release(_, level, _) => Plan::Leave(level),
        },
    }
}

// The plan of a step over stores of these lengths, whatever the tally: refusals 9, 8 and 6, in that order, or what the step does.
#[tactic(auto, using(crate::proofs::PlanLaws::ready_act, crate::proofs::PlanLaws::plan_in_lem), unfolding(crate::specs::Plan::plan_of))]
pub fn plan_of(setup: Setup, channel: Channel, slave: usize, master: usize) -> Plan
    ensures { result ≡ plan_of setup channel slave master }
{
    let verdict = ready_verdict(setup, channel, slave, master);
    let decision = decide(verdict, &setup, &channel, tally::no_tally());
    plan_in(decision.stepped.answer)
}

// A step before its bytes are moved: refusals 9, 8 and 6, in that order, or the next channel, the tally, the entry and what is
// to be moved.
#[tactic(auto, using(crate::proofs::PlanLaws::ready_act), unfolding(crate::specs::Plan::plan_of, crate::specs::Step::decision_of, crate::specs::Step::step_of))]
pub fn decision_of<'a>(
    setup: Setup,
    channel: Channel,
    tally: Tally,
    slave: &'a [u8],
    master: &'a [u8],
) -> Decision
    ensures { result ≡ decision_of setup channel tally slave.now master.now }
{
    let verdict = ready_verdict(setup, channel, slave.len(), master.len());
    decide(verdict, &setup, &channel, tally)
}

// Both ranges of what is to be moved lie inside their stores. No sum here can wrap.
fn carry_fits(what: Carry, slave: usize, master: usize) -> bool
    ensures { result ≡ carry_fits what slave master }
{
    if slave < what.bytes {
        return false;
    }
    if master < what.bytes {
        return false;
    }
    (what.place <= slave - what.bytes) & (what.offset <= master - what.bytes)
}

// Moves what a step was decided to move. Where a range does not lie inside its store, nothing is moved.
#[tactic(auto, unfolding(crate::specs::Step::slave_after_carry, crate::specs::Step::master_after_carry))]
pub fn carry_bytes(what: Carry, slave: &mut [u8], master: &mut [u8])
    ensures slave_after { slave.new ≡ slave_after_carry what slave.old master.old }
    ensures master_after { master.new ≡ master_after_carry what slave.old master.old }
{
    if carry_fits(what, slave.len(), master.len()) {
        carry(what, slave, master);
    }
}

// One step: the decision, and its bytes. A refused step gives back the channel and the tally that it got and writes to no
// store.
#[tactic(auto, using(crate::proofs::PlanLaws::ready_act, crate::proofs::CarryLaws::plan_room, crate::proofs::CarryLaws::plan_stores), unfolding(crate::specs::Plan::plan_of, crate::specs::Step::step_of))]
pub fn step(
    setup: Setup,
    channel: Channel,
    tally: Tally,
    slave: &mut [u8],
    master: &mut [u8],
) -> Stepped
    ensures value { result ≡ step_of setup channel tally slave.old master.old }
    ensures slave_after { slave.new ≡ slave_after setup channel slave.old master.old }
    ensures master_after { master.new ≡ master_after setup channel slave.old master.old }
{
    let verdict = ready_verdict(setup, channel, slave.len(), master.len());
    let decision = decide(verdict, &setup, &channel, tally);
    carry(decision.carry, slave, master);
    decision.stepped
}

// A run that does no steps, as a refused one, gives back the channel and the tally that it got.
fn no_steps(channel: &Channel, tally: Tally, verdict: Result<(), Refusal>) -> Ran
    ensures { result ≡ no_steps channel.now tally verdict }
{
    Ran {
        channel: *channel,
        tally,
        steps: 0,
        verdict,
    }
}

// A run over a sound channel and stores of the right lengths: refusal 7, or its steps.
#[tactic(auto, unfolding(crate::specs::Run::run_from))]
fn run_ready(
    setup: &Setup,
    channel: &Channel,
    tally: Tally,
    slave: &mut [u8],
    master: &mut [u8],
    budget: u32,
) -> Ran
    requires ready { Ready setup.now channel.now (length slave.old) (length master.old) }
    requires shaped { Shaped channel.now }
    ensures value { result ≡ (run_by setup.now accepted budget (world channel.now tally slave.old master.old)).result }
    ensures slave_after { slave.new ≡ (run_by setup.now accepted budget (world channel.now tally slave.old master.old)).slave }
    ensures master_after { master.new ≡ (run_by setup.now accepted budget (world channel.now tally slave.old
        master.old)).master }
{
    if STEPS_MOST < budget {
        return no_steps(channel, tally, Err(Refusal::TooManySteps));
    }
    // none is taken, not even the first grant
    if budget == 0 {
        return no_steps(channel, tally, Ok(()));
    }
    run_steps(setup, channel, tally, slave, master, budget)
}

// Runs up to `budget` steps: refusals 9, 8 and 7, in that order; it stops before a step that meets 6.
#[tactic(auto, using(crate::proofs::PlanLaws::ready_is), unfolding(crate::specs::Run::run_of))]
pub fn run(
    setup: Setup,
    channel: Channel,
    tally: Tally,
    slave: &mut [u8],
    master: &mut [u8],
    budget: u32,
) -> Ran
    ensures value { result ≡ (run_of setup budget (world channel tally slave.old master.old)).result }
    ensures slave_after { slave.new ≡ (run_of setup budget (world channel tally slave.old master.old)).slave }
    ensures master_after { master.new ≡ (run_of setup budget (world channel tally slave.old master.old)).master }
{
    let verdict = ready_verdict(setup, channel, slave.len(), master.len());
    match verdict {
        Err(_) => no_steps(&channel, tally, verdict),
        Ok(()) => run_ready(&setup, &channel, tally, slave, master, budget),
    }
}

// A refused logged run writes nothing.
fn no_lines(channel: &Channel, tally: Tally, verdict: Result<(), Refusal>, at: usize) -> Logged
    ensures { result ≡ no_lines channel.now tally verdict at }
{
    Logged {
        ran: no_steps(channel, tally, verdict),
        end: at,
    }
}

// A logged run over a sound channel and stores of the right lengths: refusal 7, or its steps and their lines.
fn log_ready(
    setup: &Setup,
    channel: &Channel,
    tally: Tally,
    slave: &mut [u8],
    master: &mut [u8],
    out: &mut [u8],
    at: usize,
    budget: u32,
) -> Logged
    requires ready { Ready setup.now channel.now (length slave.old) (length master.old) }
    requires shaped { Shaped channel.now }
    ensures value { result ≡ (log_by setup.now accepted budget (world channel.now tally slave.old master.old)
        (page out.old at)).result }
    ensures slave_after { slave.new ≡ (log_by setup.now accepted budget (world channel.now tally slave.old master.old)
        (page out.old at)).slave }
    ensures master_after { master.new ≡ (log_by setup.now accepted budget (world channel.now tally slave.old master.old)
        (page out.old at)).master }
    ensures out_after { out.new ≡ (log_by setup.now accepted budget (world channel.now tally slave.old master.old)
        (page out.old at)).out }
{
    if STEPS_MOST < budget {
        return no_lines(channel, tally, Err(Refusal::TooManySteps), at);
    }
    log_steps(setup, channel, tally, slave, master, out, at, budget)
}

// Runs up to `budget` steps and writes the line of each into the lent buffer, from `at` on: refusals 9, 8 and 7, in that order; it
// stops before a step that meets 6, and before one for whose line there may be no room.
#[tactic(auto, using(crate::proofs::PlanLaws::ready_is), unfolding(crate::specs::Log::log_run_of))]
pub fn log_run(
    setup: Setup,
    channel: Channel,
    tally: Tally,
    slave: &mut [u8],
    master: &mut [u8],
    out: &mut [u8],
    at: usize,
    budget: u32,
) -> Logged
    ensures value { result ≡ (log_run_of setup budget (world channel tally slave.old master.old) (page out.old at)).result }
    ensures slave_after { slave.new ≡ (log_run_of setup budget (world channel tally slave.old master.old)
        (page out.old at)).slave }
    ensures master_after { master.new ≡ (log_run_of setup budget (world channel tally slave.old master.old)
        (page out.old at)).master }
    ensures out_after { out.new ≡ (log_run_of setup budget (world channel tally slave.old master.old)
        (page out.old at)).out }
{
    let verdict = ready_verdict(setup, channel, slave.len(), master.len());
    match verdict {
        Err(_) => no_lines(&channel, tally, verdict, at),
        Ok(()) => log_ready(&setup, &channel, tally, slave, master, out, at, budget),
    }
}
