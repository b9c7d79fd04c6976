// What the calls answer, in plain numbers.
ghost use Rattle.std.specs.Prelude.{◌≡◌};
ghost use Rattle.act.specs.Entry.{ending_number};
ghost use Rattle.lobrinkas.specs.Answers.{refused_answer, asked_of, time_of, asked_in, time_in, bare_step, refused_step, cycle_step, step_by};
ghost use Rattle.lobrinkas.specs.Answers.{refused_ran_by, refused_ran, refused_told, told_by};

use crate::{Answer, Ran, Stepped, Told};
use act::{CycleEntry, Ending, Entry};
use refusal::Refusal;
use tally::Tally;
use why::Reason;

// Whether an owner had been asked, and how long before its release; and how its cycle ended.
#[derive(Clone, Copy)]
struct Held {
    ending: u32,
    asked: u32,
    hold: u32,
}

// A refused set-up or post.
pub(crate) fn refused_answer(why: Refusal, length: usize) -> Answer
    ensures { result ≡ refused_answer why length }
{
    Answer {
        refusal: u32::from(refusal::refusal_number(why)),
        clock: 0,
        length,
    }
}

fn held_by(hold: Option<u32>) -> Held
    ensures { result ≡ record { ending = 1; asked = asked_of hold; hold = time_of hold } }
{
    match hold {
        None => Held {
            ending: 1,
            asked: 0,
            hold: 0,
        },
        Some(time) => Held {
            ending: 1,
            asked: 1,
            hold: time,
        },
    }
}

fn held_at(ending: Ending) -> Held
    ensures { result ≡ record { ending = ending_number ending; asked = asked_in ending; hold = time_in ending } }
{
    match ending {
        Ending::Kept => Held {
            ending: 0,
            asked: 0,
            hold: 0,
        },
        Ending::Released(hold) => held_by(hold),
        Ending::Marked(time) => Held {
            ending: 2,
            asked: 1,
            hold: time,
        },
    }
}

// A step whose line shows no cycle.
fn bare_step(
    refusal: u32,
    kind: u32,
    length: usize,
    clock: u32,
    level: u8,
    hold: Option<u32>,
    tally: Tally,
) -> Stepped
    ensures { result ≡ bare_step refusal kind length clock level hold tally }
{
    let held = held_by(hold);
    Stepped {
        refusal,
        kind,
        length,
        clock,
        level: u32::from(level),
        address: 0,
        bytes: 0,
        direction: 0,
        master_lane: 0,
        slave_lane: 0,
        ending: 0,
        asked: held.asked,
        hold: held.hold,
        tally,
    }
}

// A refused step.
pub(crate) fn refused_step(why: Refusal, length: usize, tally: Tally) -> Stepped
    ensures { result ≡ refused_step why length tally }
{
    bare_step(
        u32::from(refusal::refusal_number(why)),
        0,
        length,
        0,
        0,
        None,
        tally,
    )
}

// A step that ran a cycle.
#[tactic(auto, unfolding(crate::specs::Answers::cycle_step))]
fn cycle_step(entry: CycleEntry, length: usize, tally: Tally) -> Stepped
    ensures { result ≡ cycle_step entry length tally }
{
    let held = held_at(entry.ending);
    Stepped {
        refusal: 0,
        kind: 67,
        length,
        clock: entry.clock,
        level: u32::from(entry.level),
        address: entry.address,
        bytes: entry.bytes,
        direction: entry.direction,
        master_lane: entry.master_lane,
        slave_lane: entry.slave_lane,
        ending: held.ending,
        asked: held.asked,
        hold: held.hold,
        tally,
    }
}

// A step by its entry.
pub(crate) fn step_by(entry: Entry, length: usize, tally: Tally) -> Stepped
    ensures { result ≡ step_by entry length tally }
{
    match entry {
        Entry::Idle(clock) => bare_step(0, 73, length, clock, 0, None, tally),
        Entry::Grant(clock, owner) => bare_step(0, 71, length, clock, owner, None, tally),
        Entry::Cycle(cycle) => cycle_step(cycle, length, tally),
        Entry::Release(clock, level, hold) => bare_step(0, 82, length, clock, level, hold, tally),
    }
}

// A run that is refused by a number.
pub(crate) fn refused_run_by(number: u32, length: usize, tally: Tally) -> Ran
    ensures { result ≡ refused_ran_by number length tally }
{
    Ran {
        refusal: number,
        stop: 0,
        length,
        clock: 0,
        steps: 0,
        tally,
    }
}

// A refused run.
pub(crate) fn refused_run(why: Refusal, length: usize, tally: Tally) -> Ran
    ensures { result ≡ refused_ran why length tally }
{
    refused_run_by(u32::from(refusal::refusal_number(why)), length, tally)
}

// A refused question.
pub(crate) fn refused_told(refusal: Refusal) -> Told
    ensures { result ≡ refused_told refusal }
{
    Told {
        refusal: u32::from(refusal::refusal_number(refusal)),
        reason: 0,
        level: 0,
    }
}

// What the plain call told.
pub(crate) fn told_by(told: Result<Reason, Refusal>) -> Told
    ensures { result ≡ told_by told }
{
    match told {
        Err(why) => refused_told(why),
        Ok(reason) => Told {
            refusal: 0,
            reason: u32::from(why::reason_number(reason)),
            level: u32::from(why::reason_level(reason)),
        },
    }
}
