// Why a level waits (document 02, CR 3): for a channel and a level the first that is true of seven reasons, or refusal 9.
#![tactic(auto)]

ghost use Rattle.std.specs.Prelude.{◌≡◌, not};
ghost use Rattle.channel.specs.Channel.{is_arbitrating};
ghost use Rattle.channel.specs.Line.{is_inactive};
ghost use Rattle.why.specs.Reason.{owns, reason_number, reason_level};
ghost use Rattle.why.specs.Why.{reason_of, why_of};

use basics::PLACES;
use channel::{Channel, Phase};
use frame::Setup;
use refusal::Refusal;

// What is true of a level, in the order in which it is told. The owner that holds and the winner are named.
#[derive(Clone, Copy)]
pub enum Reason {
    NotPresent,
    NoRequest,
    Owns,
    Inactive,
    Holds(u8),
    Outranked(u8),
    WinsNext,
}

// The number of a reason: its place in the order. A match, as two reasons have to be able to get one number in a wrong program (must-fail/second_answers).
pub fn reason_number(reason: Reason) -> u8
    ensures { result ≡ reason_number reason }
{
    match reason {
        Reason::NotPresent => 0,
        Reason::NoRequest => 1,
        Reason::Owns => 2,
        Reason::Inactive => 3,
        Reason::Holds(_) => 4,
        Reason::Outranked(_) => 5,
        Reason::WinsNext => 6,
    }
}

// The level that a reason names; 0 where it names none.
pub fn reason_level(reason: Reason) -> u8
    ensures { result ≡ reason_level reason }
{
    match reason {
        Reason::Holds(owner) => owner,
        Reason::Outranked(winner) => winner,
        _ => 0,
    }
}

// The level owns the channel. A level is any number: it is never made shorter.
fn is_owner(phase: Phase, level: u32) -> bool
    ensures { result ≡ owns phase level }
{
    match phase {
        Phase::Arbitrating => false,
        Phase::Granted(owner) => u32::from(owner) == level,
    }
}

// The level is marked inactive. A number that is no level has no mark.
fn is_marked(inactive: &[bool; PLACES], level: usize) -> bool
    ensures { result ≡ is_inactive inactive.now level }
{
    inactive.get(level).copied().unwrap_or(false)
}

// Some level owns the channel.
fn is_held(phase: Phase) -> bool
    ensures { result ≡ not (is_arbitrating phase) }
{
    matches!(phase, Phase::Granted(_))
}

// The first that is true. All is looked up before the first test, so that the tests stand in the order of the reasons, one
// below the other. A test may rely on those above it.
#[tactic(auto, unfolding(crate::specs::Why::reason_of, crate::specs::Reason::outranks, channel::specs::Line::waits))]
fn reason_of(setup: Setup, channel: Channel, level: u32) -> Reason
    ensures { result ≡ reason_of setup channel level }
{
    let request = channel::request_of(channel, level as usize);
    let owner = channel::owner_of(channel.phase);
    let winner = channel::winner_from(&channel.left, &channel.inactive, 0);
    let absent = !frame::is_present(setup.levels, level);
    let none = request.left == 0;
    let owning = is_owner(channel.phase, level);
    let marked = is_marked(&channel.inactive, level as usize);
    let held = is_held(channel.phase);
    let outranked = u32::from(winner) != level;
    if absent {
        return Reason::NotPresent;
    }
    if none {
        return Reason::NoRequest;
    }
    if owning {
        return Reason::Owns;
    }
    if marked {
        return Reason::Inactive;
    }
    if held {
        return Reason::Holds(owner);
    }
    if outranked {
        return Reason::Outranked(winner);
    }
    Reason::WinsNext
}

// Why a level waits, or that it doesn't.
#[tactic(auto, unfolding(crate::specs::Why::why_of, sound::specs::Sound::sound_store))]
pub fn why(setup: Setup, channel: Channel, level: u32) -> Result<Reason, Refusal>
    ensures { result ≡ why_of setup channel level }
{
    sound::sound_store(setup, channel).ok_or(Refusal::Unsound)?;
    Ok(reason_of(setup, channel, level))
}
