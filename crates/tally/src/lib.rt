// The tally (document 01, "One step"): grants, cycles, bytes moved and the longest hold, by value
// and as the host lends it.
#![tactic(auto)]

ghost use Rattle.std.specs.Prelude.{◌≡◌};
ghost use Rattle.tally.specs.Tally.{no_tally, add_capped, larger_of, hold_figure, ending_figure, add_grant, add_cycle, add_release, add_entry};

use act::{Ending, Entry};

#[repr(C)]
#[derive(Clone, Copy)]
pub struct Tally {
    pub grants: u32,
    pub cycles: u32,
    pub bytes: u32,
    pub hold: u32,
}

// A tally of nothing.
pub fn no_tally() -> Tally
    ensures { result ≡ no_tally }
{
    Tally {
        grants: 0,
        cycles: 0,
        bytes: 0,
        hold: 0,
    }
}

// A sum that stops at 4,294,967,295.
fn add_capped(a: u32, b: u32) -> u32
    ensures { result ≡ add_capped a b }
{
    a.saturating_add(b)
}

fn larger_of(a: u32, b: u32) -> u32
    ensures { result ≡ larger_of a b }
{
    a.max(b)
}

// The clock less the asked time at a release, or 0 where there was none.
fn hold_figure(hold: Option<u32>) -> u32
    ensures { result ≡ hold_figure hold }
{
    hold.unwrap_or(0)
}

fn ending_figure(ending: Ending) -> u32
    ensures { result ≡ ending_figure ending }
{
    match ending {
        Ending::Kept => 0,
        Ending::Released(hold) => hold_figure(hold),
        Ending::Marked(time) => time,
    }
}

// One more grant.
#[tactic(auto, unfolding(crate::specs::Tally::add_grant))]
pub fn add_grant(tally: Tally) -> Tally
    ensures { result ≡ add_grant tally }
{
    Tally {
        grants: add_capped(tally.grants, 1),
        ..tally
    }
}

// One more cycle, of these bytes and with this ending.
#[tactic(auto, unfolding(crate::specs::Tally::add_cycle))]
pub fn add_cycle(tally: Tally, bytes: u32, ending: Ending) -> Tally
    ensures { result ≡ add_cycle tally bytes ending }
{
    Tally {
        cycles: add_capped(tally.cycles, 1),
        bytes: add_capped(tally.bytes, bytes),
        hold: larger_of(tally.hold, ending_figure(ending)),
        ..tally
    }
}

// One more release without a request.
#[tactic(auto, unfolding(crate::specs::Tally::add_release))]
pub fn add_release(tally: Tally, hold: Option<u32>) -> Tally
    ensures { result ≡ add_release tally hold }
{
    Tally {
        hold: larger_of(tally.hold, hold_figure(hold)),
        ..tally
    }
}

// The tally after one more step.
pub fn add_entry(tally: Tally, entry: Entry) -> Tally
    ensures { result ≡ add_entry tally entry }
{
    match entry {
        Entry::Idle(_) => tally,
        Entry::Grant(_, _) => add_grant(tally),
        Entry::Cycle(cycle) => add_cycle(tally, cycle.bytes, cycle.ending),
        Entry::Release(_, _, hold) => add_release(tally, hold),
    }
}

// The tally that the host lends, after one more step.
pub fn count(tally: &mut Tally, entry: Entry)
    ensures { tally.new ≡ add_entry tally.old entry }
{
    *tally = add_entry(*tally, entry);
}
