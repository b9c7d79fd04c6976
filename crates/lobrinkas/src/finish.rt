// How a call ends: the plain call was made, its new image is written where the set-up's part ends, whole or not at all, and only
// then bytes move. A function for each call, as each answers in a struct of its own in C.
ghost use Rattle.std.specs.Prelude.{◌≡◌, length};
ghost use Rattle.lobrinkas.specs.Calls.{answering, stepping};
ghost use Rattle.lobrinkas.specs.inner.Finish.{answer_finished, step_finished, run_finished, short_run, set_up_finished, run_left};

use crate::answers::{refused_answer, refused_run, refused_run_by, refused_step, step_by};
use crate::{Answer, Ran, Stepped};
use basics::STEPS_MOST;
use channel::{Channel, Judged};
use frame::Setup;
use refusal::Refusal;
use step::Decision;
use tally::Tally;

// A post.
#[tactic(auto, unfolding(crate::specs::inner::Finish::answer_finished))]
pub(crate) fn finish_answer(image: &mut [u8], length: usize, start: usize, judged: Judged) -> Answer
    ensures { answering result image.new ≡ answer_finished judged image.old length start }
{
    let verdict = judged.verdict;
    match verdict {
        Err(why) => refused_answer(why, length),
        Ok(()) => {
            let next = judged.channel;
            match image::write_channel(next, image, start) {
                Err(why) => refused_answer(why, length),
                Ok(end) => Answer {
                    refusal: 0,
                    clock: next.clock,
                    length: end,
                },
            }
        }
    }
}

// A set-up: a whole image is written.
#[tactic(auto, unfolding(crate::specs::inner::Finish::set_up_finished))]
pub(crate) fn finish_set_up(image: &mut [u8], setup: Setup, channel: Channel) -> Answer
    ensures { answering result image.new ≡ set_up_finished setup channel image.old }
{
    match image::write_image(setup, channel, image) {
        Err(why) => refused_answer(why, 0),
        Ok(end) => Answer {
            refusal: 0,
            clock: channel.clock,
            length: end,
        },
    }
}

// A step.
#[tactic(auto, unfolding(crate::specs::inner::Finish::step_finished), using(crate::proofs::FinishLaws::written_none))]
pub(crate) fn finish_step(
    image: &mut [u8],
    length: usize,
    start: usize,
    decision: Decision,
    slave: &mut [u8],
    master: &mut [u8],
    tally: Tally,
) -> Stepped
    ensures { stepping result image.new slave.new master.new
        ≡ step_finished decision tally image.old length start slave.old master.old }
{
    let stepped = decision.stepped;
    let answer = stepped.answer;
    match answer {
        Err(why) => refused_step(why, length, tally),
        Ok(entry) => {
            match image::write_channel(stepped.channel, image, start) {
                Err(why) => refused_step(why, length, tally),
                Ok(end) => {
                    step::carry_bytes(decision.carry, slave, master);
                    step_by(entry, end, stepped.tally)
                }
            }
        }
    }
}

// Why a run over memory without room for the longest image is refused. A run of no steps is tested as any other, and does nothing.
pub(crate) fn short_run(
    setup: Setup,
    channel: Channel,
    tally: Tally,
    slave: &mut [u8],
    master: &mut [u8],
    steps: u32,
) -> Refusal
    ensures value { result ≡ short_run setup channel (length slave.old) (length master.old) steps }
    ensures slave_unchanged { slave.new ≡ slave.old }
    ensures master_unchanged { master.new ≡ master.old }
{
    let tried = step::run(setup, channel, tally, slave, master, 0);
    let verdict = tried.verdict;
    match verdict {
        Err(why) => why,
        Ok(()) => {
            if STEPS_MOST < steps {
                return Refusal::TooManySteps;
            }
            Refusal::NoRoom
        }
    }
}

// A run that was made. It was refused, or it may have stopped before a step that the clock has no room for, which is no refusal.
#[tactic(auto, unfolding(crate::specs::inner::Finish::run_finished))]
pub(crate) fn finish_run(
    image: &mut [u8],
    length: usize,
    start: usize,
    ran: step::Ran,
    tally: Tally,
) -> Ran
    ensures { run_left result image.new ≡ run_finished ran tally image.old length start }
{
    let verdict = ran.verdict;
    let number = u32::from(refusal::verdict_number(verdict));
    if (number != 0) & (number != 6) {
        return refused_run_by(number, length, tally);
    }
    let next = ran.channel;
    match image::write_channel(next, image, start) {
        Err(why) => refused_run(why, length, tally),
        Ok(end) => Ran {
            refusal: 0,
            stop: number,
            length: end,
            clock: next.clock,
            steps: ran.steps,
            tally: ran.tally,
        },
    }
}
