// What the list of a valid sheet holds (document 01, "The job sheet"): its set-up and its events. Every call takes any
// list; of one that no valid sheet has, the answer is of no interest.
#![tactic(auto)]

ghost use Rattle.std.specs.Prelude.{◌≡◌, ◌+◌, ◌≤◌, ◌<◌, length, get_or};
ghost use Rattle.sheetlist.specs.Held.{events_from, setup_of};
ghost use Rattle.sheetlist.specs.Held.{event_count, first_event, post_at, event_at, next_event, event_of};

use frame::{Order, Setup};

// A number of steps, or a post.
#[derive(Clone, Copy)]
pub enum Event {
    Steps(u32),
    Post(Order),
}

// The number at an index; 0 past the end.
fn number_in(list: &[u32], i: usize) -> u32
    ensures { result ≡ get_or list.now i 0 }
{
    list.get(i).copied().unwrap_or(0)
}

// The set-up, with a master length that the sheet does not have.
#[tactic(auto, unfolding(crate::specs::Held::setup_of))]
pub fn setup_of(list: &[u32], master: u32) -> Setup
    ensures { result ≡ setup_of list.now master }
{
    Setup {
        master,
        ..sheet::head_of(list).setup
    }
}

// The index of the event count.
#[tactic(auto, unfolding(crate::specs::Held::events_from), using(crate::proofs::HeldLaws::head_ends))]
fn events_from(list: &[u32]) -> usize
    ensures value { result ≡ events_from list.now }
    ensures upper_bound { result ≤ length list.now + 1 }
{
    sheet::head_of(list).part.unwrap_or(list.len())
}

// How many events there are.
#[tactic(auto, unfolding(crate::specs::Held::event_count))]
pub fn event_count(list: &[u32]) -> usize
    ensures { result ≡ event_count list.now }
{
    number_in(list, events_from(list)) as usize
}

// The index at which the first event begins.
pub fn first_event(list: &[u32]) -> usize
    ensures { result ≡ first_event list.now }
{
    events_from(list) + 1
}

// The event that begins at an index.
#[tactic(auto, unfolding(crate::specs::Held::event_at))]
pub fn event_at(list: &[u32], at: usize) -> Event
    ensures { result ≡ event_at list.now at }
{
    if list.len() <= at {
        return Event::Steps(0);
    }
    if list[at] == 0 {
        return Event::Steps(number_in(list, at + 1));
    }
    Event::Post(post_at(list, at))
}

// The six numbers of a post that begins at an index.
fn post_at(list: &[u32], at: usize) -> Order
    requires { at < length list.now }
    ensures { result ≡ post_at list.now at }
{
    Order {
        level: number_in(list, at + 1),
        direction: number_in(list, at + 2),
        space: number_in(list, at + 3),
        address: number_in(list, at + 4),
        length: number_in(list, at + 5),
        offset: number_in(list, at + 6),
    }
}

// The index past the event that begins at an index.
#[tactic(auto, unfolding(crate::specs::Held::next_event))]
pub fn next_event(list: &[u32], at: usize) -> usize
    ensures { result ≡ next_event list.now at }
{
    if list.len() <= at {
        return at;
    }
    if list[at] == 0 { at + 2 } else { at + 7 }
}

// Event i, counted from 0. A walk with `first_event`, `event_at` and `next_event` takes each event in a single step.
#[tactic(auto, unfolding(crate::specs::Held::event_of, crate::specs::Held::event_from))]
pub fn event_of(list: &[u32], i: usize) -> Event
    ensures { result ≡ event_of list.now i }
{
    let mut at = first_event(list);
    for _ in 0..i {
        at = next_event(list, at);
    }
    event_at(list, at)
}
