// The test for an unsound channel (document 01, "Refusal numbers"), and what a request, posted or open, may meet: refusals
// 3, 4 and 5.
#![tactic(auto)]

ghost use Rattle.std.specs.Prelude.{◌≡◌, ◌<◌, ◌+◌, ltb, IfSome};
ghost use Rattle.std.specs.Option.{is_some};
ghost use Rattle.basics.specs.Limits.{places};
ghost use Rattle.frame.specs.Frame.{levels_fit};
ghost use Rattle.channel.specs.Channel.{request_of};
ghost use Rattle.sound.specs.Request.{is_in_range, is_inside_slave, request_verdict, transfer_of};
ghost use Rattle.sound.specs.Sound.{are_unmarked, is_never_granted_sound, is_blank, is_in_time, is_asked_at, is_asked_sound};
ghost use Rattle.sound.specs.Sound.{is_clock_sound, is_sound, sound_store};
ghost use Rattle.sound.specs.inner.Tables.{AreMembers, with_level, grant_fits, owner_fits, are_blank, open_sound, are_open_sound};
ghost use Rattle.sound.specs.inner.Tables.{requests_fit, are_marked};

use basics::{CLOCK_LIMIT, PLACES, PLACES_U32, ROWS_MOST, SYSTEM_MASTER};
use channel::{Channel, Phase, Request};
use frame::{LevelRow, LevelRows, Setup};
use refusal::Refusal;

// Length, direction and space of a request are in range.
#[tactic(auto, unfolding(crate::specs::Request::is_in_range))]
fn is_in_range(request: Request) -> bool
    ensures { result ≡ is_in_range request }
{
    cycle::is_length(request.left) && request.direction <= 1 && request.space <= 1
}

// Some slave row wholly holds the range.
#[tactic(auto, using(crate::proofs::TableLaws::inside))]
fn is_inside_slave(setup: &Setup, request: Request) -> bool
    ensures { result ≡ is_inside_slave setup.now request }
{
    for i in 0..setup.slaves.count.min(ROWS_MOST) {
        let row = setup.slaves.rows[i];
        if frame::row_holds(row, request.space, request.address, request.left) {
            return true;
        }
    }
    false
}

// The range isn't wholly inside the master store.
fn is_past_master(master: u32, request: Request) -> bool
    ensures { result ≡ ltb master (request.offset + request.left) }
{
    u64::from(master) < u64::from(request.offset) + u64::from(request.left)
}

// The first of refusals 3, 4 and 5 that a request meets.
#[tactic(auto, unfolding(crate::specs::Request::request_verdict))]
fn verdict_of(setup: &Setup, level: u32, request: Request) -> Result<(), Refusal>
    ensures { result ≡ request_verdict setup.now level request }
{
    if !is_in_range(request) {
        return Err(Refusal::OutOfRange);
    }
    if !is_inside_slave(setup, request) {
        return Err(Refusal::OutsideSlave);
    }
    if is_past_master(setup.master, request) {
        return Err(Refusal::OutsideMaster);
    }
    Ok(())
}

// Refusals 3, 4 and 5 of a level's request, or of what is left of one.
pub fn request_verdict(setup: Setup, level: u32, request: Request) -> Result<(), Refusal>
    ensures { result ≡ request_verdict setup level request }
{
    verdict_of(&setup, level, request)
}

// The time of a transfer, by its rows.
#[tactic(auto, unfolding(crate::specs::Request::transfer_of, act::specs::Cycle::next_time, act::specs::Cycle::route_of))]
fn time_of(setup: &Setup, level: u32, request: Request) -> u64
    ensures { result ≡ transfer_of setup.now level request }
{
    let row = frame::level_of(setup.levels, level);
    let slave = channel::slave_of(setup.slaves, request);
    cycle::transfer_time(
        row.width,
        slave.port,
        slave.time,
        request.address,
        request.left,
    )
}

// How long the transfer of a level that holds the next byte of a request takes.
pub fn transfer_of(setup: Setup, level: u32, request: Request) -> u64
    ensures { result ≡ transfer_of setup level request }
{
    time_of(&setup, level, request)
}

// Which levels the set-up has, and which of them are fair, by level number: the rows are searched once, not for each level.
#[derive(Clone, Copy)]
struct Members {
    present: [bool; PLACES],
    fair: [bool; PLACES],
}

const NO_MEMBERS: Members = Members {
    present: [false; PLACES],
    fair: [false; PLACES],
};

// The level of a row that has a place in the tables, put into them.
fn put_level(members: &mut Members, row: LevelRow)
    requires { row.level < places }
    ensures { members.new ≡ with_level members.old row }
{
    let level = row.level as usize;
    members.present[level] = true;
    members.fair[level] = frame::is_fair(row.options);
}

// The rows are gone through from the last to the first: a level's first row counts.
#[tactic(auto, using(crate::proofs::TableLaws::found))]
fn members_of(levels: &LevelRows) -> Members
    ensures { AreMembers levels.now result }
{
    let mut members = NO_MEMBERS;
    for i in (0..levels.count.min(ROWS_MOST)).rev() {
        let row = levels.rows[i];
        if row.level < PLACES_U32 {
            put_level(&mut members, row);
        }
    }
    members
}

// The same of rows that keep the frame, and none of others: one pass for both tests, as every step pays for it.
#[tactic(auto, using(crate::proofs::TableLaws::found), unfolding(frame::specs::Frame::levels_fit, basics::specs::Scan::all_below))]
fn seats_of(levels: &LevelRows) -> Option<Members>
    ensures fits { is_some result ≡ levels_fit levels.now }
    ensures members { IfSome result (AreMembers levels.now) }
{
    let count = levels.count;
    if !frame::is_row_count(count) {
        return None;
    }
    let mut members = NO_MEMBERS;
    for i in (0..count).rev() {
        let row = levels.rows[i];
        // the first row has none before it, and stands in for it
        let before = levels.rows[i.saturating_sub(1)];
        if !frame::level_fits(row, before.level, i, count) {
            return None;
        }
        put_level(&mut members, row);
    }
    Some(members)
}

// No level is marked inactive.
#[tactic(auto, using(crate::proofs::TableLaws::scan), unfolding(crate::specs::Sound::are_unmarked, basics::specs::Scan::all_below))]
fn are_unmarked(inactive: &[bool; PLACES]) -> bool
    ensures { result ≡ are_unmarked inactive.now }
{
    for marked in inactive {
        if *marked {
            return false;
        }
    }
    true
}

// A channel never granted isn't granted now, has no mark, and its clock is 0.
#[tactic(auto, unfolding(crate::specs::Sound::is_never_granted_sound))]
fn is_never_granted_sound(channel: &Channel) -> bool
    ensures { result ≡ is_never_granted_sound channel.now.ever channel.now.phase channel.now.clock channel.now.inactive }
{
    if channel.ever {
        return true;
    }
    match channel.phase {
        Phase::Arbitrating => are_unmarked(&channel.inactive) && channel.clock == 0,
        Phase::Granted(_) => false,
    }
}

// An owner is present, has a request unless it is 15, and isn't inactive.
fn is_grant_sound(members: &Members, channel: &Channel, owner: u8) -> bool
    ensures { result ≡ grant_fits members.now channel.now owner }
{
    if SYSTEM_MASTER < owner {
        return false;
    }
    let level = owner as usize;
    let asking = owner == SYSTEM_MASTER || channel.left[level] != 0;
    members.present[level] && asking && !channel.inactive[level]
}

fn is_owner_sound(members: &Members, channel: &Channel) -> bool
    ensures { result ≡ owner_fits members.now channel.now channel.now.phase }
{
    match channel.phase {
        Phase::Arbitrating => true,
        Phase::Granted(owner) => is_grant_sound(members, channel, owner),
    }
}

// What is left of a level's request: `channel::request_of` for a channel that is lent.
fn request_in(channel: &Channel, level: usize) -> Request
    ensures { result ≡ request_of channel.now level }
{
    if PLACES <= level {
        return channel::no_request();
    }
    Request {
        direction: channel.direction[level],
        space: channel.space[level],
        address: channel.address[level],
        left: channel.left[level],
        offset: channel.offset[level],
    }
}

// A place without a request holds zeros. Field by field: `left` is no part of it, so that an equality with an empty request would say it less plainly.
#[tactic(auto, unfolding(crate::specs::Sound::is_blank))]
fn is_blank(request: Request) -> bool
    ensures { result ≡ is_blank request }
{
    (request.direction == 0)
        & ((request.space == 0) & ((request.address == 0) & (request.offset == 0)))
}

// Every place without a request holds zeros. No test ends it early, so that several levels are tested at a time.
#[tactic(auto, using(crate::proofs::TableLaws::scan), unfolding(crate::specs::inner::Tables::are_blank, basics::specs::Scan::all_below))]
fn are_blank(channel: &Channel) -> bool
    ensures { result ≡ are_blank channel.now }
{
    let mut all = true;
    for level in 0..PLACES {
        let request = request_in(channel, level);
        all &= (request.left != 0) | is_blank(request);
    }
    all
}

// A level has no open request, or is present, and what is left meets none of 3, 4 and 5.
#[tactic(auto, unfolding(crate::specs::inner::Tables::open_sound))]
fn is_open_sound(setup: &Setup, members: &Members, channel: &Channel, level: usize) -> bool
    requires { level < places }
    ensures { result ≡ open_sound setup.now members.now channel.now level }
{
    let request = request_in(channel, level);
    request.left == 0
        || (members.present[level]
            && refusal::is_accepted(verdict_of(setup, level as u32, request)))
}

// Every level's open request is sound.
#[tactic(auto, using(crate::proofs::TableLaws::scan), unfolding(crate::specs::inner::Tables::are_open_sound, basics::specs::Scan::all_below))]
fn are_open_sound(setup: &Setup, members: &Members, channel: &Channel) -> bool
    ensures { result ≡ are_open_sound setup.now members.now channel.now }
{
    for level in 0..PLACES {
        if !is_open_sound(setup, members, channel, level) {
            return false;
        }
    }
    true
}

// Every level's request is sound. The places without one are tested first, in a loop of their own.
fn are_requests_sound(setup: &Setup, members: &Members, channel: &Channel) -> bool
    ensures { result ≡ requests_fit setup.now members.now channel.now }
{
    are_blank(channel) && are_open_sound(setup, members, channel)
}

// Every inactive mark stands at a present, fair level, and only while the line is active. Several levels are tested at a time
// here too.
#[tactic(auto, using(crate::proofs::TableLaws::scan), unfolding(crate::specs::inner::Tables::are_marked, basics::specs::Scan::all_below))]
fn are_marks_sound(members: &Members, channel: &Channel, active: bool) -> bool
    ensures { result ≡ are_marked members.now channel.now active }
{
    let mut all = true;
    for level in 0..PLACES {
        all &= !channel.inactive[level] | (members.fair[level] & active);
    }
    all
}

// Asked at `t`, the owner's running or next transfer ends within the allowance; without a request `t` is the clock.
#[tactic(auto, unfolding(crate::specs::Sound::is_in_time))]
fn is_in_time(setup: &Setup, owner: u32, request: Request, clock: u32, t: u32) -> bool
    ensures { result ≡ is_in_time setup.now owner request clock t }
{
    if request.left == 0 {
        return t == clock;
    }
    frame::is_within(
        frame::allowance_of(*setup),
        time_of(setup, owner, request),
        clock,
        t,
    )
}

// An asked time of an owner: the line is active, it is not later than the clock, and the owner is in time.
#[tactic(auto, unfolding(crate::specs::Sound::is_asked_at))]
fn is_asked_at(setup: &Setup, channel: &Channel, active: bool, owner: u8, t: u32) -> bool
    ensures { result ≡ is_asked_at setup.now channel.now active owner t }
{
    let request = request_in(channel, owner as usize);
    active && t <= channel.clock && is_in_time(setup, u32::from(owner), request, channel.clock, t)
}

#[tactic(auto, unfolding(crate::specs::Sound::is_asked_sound))]
fn is_asked_sound(setup: &Setup, channel: &Channel, active: bool) -> bool
    ensures { result ≡ is_asked_sound setup.now channel.now active }
{
    match (channel.phase, channel.asked) {
        (Phase::Arbitrating, None) => true,
        (Phase::Arbitrating, Some(_)) => false,
        (Phase::Granted(_), None) => !active,
        (Phase::Granted(owner), Some(t)) => is_asked_at(setup, channel, active, owner, t),
    }
}

// The clock is at most the limit.
fn is_clock_sound(channel: &Channel) -> bool
    ensures { result ≡ is_clock_sound channel.now }
{
    channel.clock <= CLOCK_LIMIT
}

// A test for each clause.
fn are_clauses_sound(setup: &Setup, members: &Members, channel: &Channel) -> bool
    requires { AreMembers setup.now.levels members.now }
    ensures { result ≡ is_sound setup.now channel.now }
{
    let active = channel::line_active(&channel.left, &channel.inactive, channel.phase);
    is_never_granted_sound(channel)
        && is_owner_sound(members, channel)
        && are_requests_sound(setup, members, channel)
        && are_marks_sound(members, channel, active)
        && is_clock_sound(channel)
        && is_asked_sound(setup, channel, active)
}

// The channel is sound.
pub fn is_sound(setup: Setup, channel: Channel) -> bool
    ensures { result ≡ is_sound setup channel }
{
    let members = members_of(&setup.levels);
    are_clauses_sound(&setup, &members, &channel)
}

// How long the slave store of a set-up that keeps the frame is, while the channel is sound.
#[tactic(auto, using(basics::proofs::Tests::tests), unfolding(crate::specs::Sound::sound_store, frame::specs::Frame::is_framed))]
pub fn sound_store(setup: Setup, channel: Channel) -> Option<usize>
    ensures { result ≡ sound_store setup channel }
{
    let members = seats_of(&setup.levels)?;
    if !frame::is_master_length(setup.master) {
        return None;
    }
    if !are_clauses_sound(&setup, &members, &channel) {
        return None;
    }
    frame::fitting_store(setup.slaves)
}
