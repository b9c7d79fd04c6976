// The post (document 01, "The frame", "Refusal numbers"): refusals 9, 1, 2, 3, 4, 5, in that order, or the request in the
// level's place and then the line rule.
#![tactic(auto)]

ghost use Rattle.std.specs.Prelude.{◌≡◌};
ghost use Rattle.post.specs.Post.{request_in, order_verdict, post_verdict, posted, post_of};

use channel::{Channel, Judged, Request};
use frame::{Order, Setup};
use refusal::Refusal;

// The order's request. No From, as its promise is the definition of this name.
fn request_in(order: Order) -> Request
    ensures { result ≡ request_in order }
{
    Request {
        direction: order.direction,
        space: order.space,
        address: order.address,
        left: order.length,
        offset: order.offset,
    }
}

// Refusals 1 to 5, of a set-up that keeps the frame and a sound channel.
fn order_verdict(setup: Setup, channel: Channel, order: Order) -> Result<(), Refusal>
    ensures { result ≡ order_verdict setup channel order }
{
    if !frame::is_present(setup.levels, order.level) {
        return Err(Refusal::LevelAbsent);
    }
    let open = channel::request_of(channel, order.level as usize);
    if open.left != 0 {
        return Err(Refusal::RequestOpen);
    }
    sound::request_verdict(setup, order.level, request_in(order))
}

// Whether a post is accepted, or the first refusal in the paper's order.
#[tactic(auto, unfolding(crate::specs::Post::post_verdict, sound::specs::Sound::sound_store))]
fn post_verdict(setup: Setup, channel: Channel, order: Order) -> Result<(), Refusal>
    ensures { result ≡ post_verdict setup channel order }
{
    sound::sound_store(setup, channel).ok_or(Refusal::Unsound)?;
    order_verdict(setup, channel, order)
}

// The channel with an accepted request.
#[tactic(auto, unfolding(crate::specs::Post::posted))]
fn accepted(channel: Channel, order: Order) -> Channel
    ensures { result ≡ posted channel order }
{
    channel::line_rule(channel::with_request(channel, order.level as usize, request_in(order)))
}

// Posts a request. A refused post gives back the channel that it got.
#[tactic(auto, unfolding(crate::specs::Post::post_of))]
pub fn post(setup: Setup, channel: Channel, order: Order) -> Judged
    ensures { result ≡ post_of setup channel order }
{
    let verdict = post_verdict(setup, channel, order);
    let next = if refusal::is_accepted(verdict) {
        accepted(channel, order)
    } else {
        channel
    };
    Judged {
        channel: next,
        verdict,
    }
}
