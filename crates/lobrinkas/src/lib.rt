// The calls of the archive (document 02, CR 1 and 3): set-up, post, step, run, cycle count and why a level waits, for a host in C,
// over the image in memory of its own. What include/lobrinkas.h declares is what stands here; crate `lobrinkas_c` exports it to C. Each call reads the
// image, makes the plain call, and writes the new image before a byte moves: where that has no room, nothing has happened.
#![tactic(auto)]

mod answers;
mod finish;

ghost use Rattle.std.specs.Prelude.{◌≡◌};
ghost use Rattle.lobrinkas.specs.Calls.{lobrinkas_set_up, order, lobrinkas_post, lobrinkas_step, lobrinkas_run, lobrinkas_cycle_count, lobrinkas_why};

use answers::{refused_answer, refused_run, refused_step, refused_told, told_by};
use finish::{finish_answer, finish_run, finish_set_up, finish_step, short_run};
use frame::Order;
use image::IMAGE_MOST;
use refusal::Refusal;
use tally::Tally;

// What a set-up or a post answers: the refusal or 0, the clock, the length of the image.
#[repr(C)]
#[derive(Clone, Copy)]
pub struct Answer {
    pub refusal: u32,
    pub clock: u32,
    pub length: usize,
}

// What a step answers: the refusal or 0, the letter of its log line, the length of the image, the line's fields in their
// order, whether an owner that released had been asked and how long before, the tally.
#[repr(C)]
#[derive(Clone, Copy)]
pub struct Stepped {
    pub refusal: u32,
    pub kind: u32,
    pub length: usize,
    pub clock: u32,
    pub level: u32,
    pub address: u32,
    pub bytes: u32,
    pub direction: u32,
    pub master_lane: u32,
    pub slave_lane: u32,
    pub ending: u32,
    pub asked: u32,
    pub hold: u32,
    pub tally: Tally,
}

// What a run answers: the refusal or 0, 6 where the clock stopped it, the length of the image, the clock, the steps done, the
// tally.
#[repr(C)]
#[derive(Clone, Copy)]
pub struct Ran {
    pub refusal: u32,
    pub stop: u32,
    pub length: usize,
    pub clock: u32,
    pub steps: u32,
    pub tally: Tally,
}

// What a cycle count answers.
#[repr(C)]
#[derive(Clone, Copy)]
pub struct Counted {
    pub refusal: u32,
    pub cycles: u32,
}

// Why a level waits: the refusal or 0, the reason's number, and the level that the reason names.
#[repr(C)]
#[derive(Clone, Copy)]
pub struct Told {
    pub refusal: u32,
    pub reason: u32,
    pub level: u32,
}

// How many cycles a request takes.
pub fn lobrinkas_cycle_count(address: u32, bytes: u32, width: u32, port: u32) -> Counted
    ensures { result ≡ lobrinkas_cycle_count address bytes width port }
{
    match cycle::cycle_count(address, bytes, width, port) {
        Err(why) => Counted {
            refusal: u32::from(refusal::refusal_number(why)),
            cycles: 0,
        },
        Ok(cycles) => Counted { refusal: 0, cycles },
    }
}

// The first image of a set-up, which is a sheet's head as a list of numbers and the length of the master store.
#[tactic(auto, unfolding(crate::specs::Calls::lobrinkas_set_up))]
pub fn lobrinkas_set_up(image: &mut [u8], head: &[u32], master_length: u32) -> Answer
    ensures value { result ≡ (lobrinkas_set_up image.old head.now master_length).result }
    ensures image_after { image.new ≡ (lobrinkas_set_up image.old head.now master_length).image }
{
    match image::read_head(head, master_length) {
        Err(why) => refused_answer(why, 0),
        Ok((setup, channel)) => finish_set_up(image, setup, channel),
    }
}

// Posts a request.
pub fn lobrinkas_post(
    image: &mut [u8],
    length: usize,
    level: u32,
    direction: u32,
    space: u32,
    address: u32,
    bytes: u32,
    offset: u32,
) -> Answer
    ensures value { result ≡ (lobrinkas_post image.old length (order level direction space address bytes offset)).result }
    ensures image_after { image.new ≡ (lobrinkas_post image.old length (order level direction space address bytes offset)).image }
{
    let Ok((setup, start)) = image::read_setup(image, length) else {
        return refused_answer(Refusal::Malformed, length);
    };
    let rest = image::read_channel(image, length, start);
    let Ok(_) = rest.part else {
        return refused_answer(Refusal::Malformed, length);
    };
    let channel = rest.channel;
    let order = Order {
        level,
        direction,
        space,
        address,
        length: bytes,
        offset,
    };
    finish_answer(image, length, start, post::post(setup, channel, order))
}

// One step.
pub fn lobrinkas_step(
    image: &mut [u8],
    length: usize,
    slave: &mut [u8],
    master: &mut [u8],
    tally: Tally,
) -> Stepped
    ensures value { result ≡ (lobrinkas_step image.old length slave.old master.old tally).result }
    ensures image_after { image.new ≡ (lobrinkas_step image.old length slave.old master.old tally).image }
    ensures slave_after { slave.new ≡ (lobrinkas_step image.old length slave.old master.old tally).slave }
    ensures master_after { master.new ≡ (lobrinkas_step image.old length slave.old master.old tally).master }
{
    let Ok((setup, start)) = image::read_setup(image, length) else {
        return refused_step(Refusal::Malformed, length, tally);
    };
    let rest = image::read_channel(image, length, start);
    let Ok(_) = rest.part else {
        return refused_step(Refusal::Malformed, length, tally);
    };
    let channel = rest.channel;
    let decision = step::decision_of(setup, channel, tally, slave, master);
    finish_step(image, length, start, decision, slave, master, tally)
}

// Up to `steps` steps. The last image is not known before: there has to be room for the longest.
pub fn lobrinkas_run(
    image: &mut [u8],
    length: usize,
    slave: &mut [u8],
    master: &mut [u8],
    tally: Tally,
    steps: u32,
) -> Ran
    ensures value { result ≡ (lobrinkas_run image.old length slave.old master.old tally steps).result }
    ensures image_after { image.new ≡ (lobrinkas_run image.old length slave.old master.old tally steps).image }
    ensures slave_after { slave.new ≡ (lobrinkas_run image.old length slave.old master.old tally steps).slave }
    ensures master_after { master.new ≡ (lobrinkas_run image.old length slave.old master.old tally steps).master }
{
    let Ok((setup, start)) = image::read_setup(image, length) else {
        return refused_run(Refusal::Malformed, length, tally);
    };
    let rest = image::read_channel(image, length, start);
    let Ok(_) = rest.part else {
        return refused_run(Refusal::Malformed, length, tally);
    };
    let channel = rest.channel;
    if image.len() < IMAGE_MOST {
        return refused_run(
            short_run(setup, channel, tally, slave, master, steps),
            length,
            tally,
        );
    }
    let ran = step::run(setup, channel, tally, slave, master, steps);
    finish_run(image, length, start, ran, tally)
}

// Why a level waits. The image is only read.
pub fn lobrinkas_why(image: &[u8], length: usize, level: u32) -> Told
    ensures { result ≡ lobrinkas_why image.now length level }
{
    let Ok((setup, start)) = image::read_setup(image, length) else {
        return refused_told(Refusal::Malformed);
    };
    let rest = image::read_channel(image, length, start);
    let Ok(_) = rest.part else {
        return refused_told(Refusal::Malformed);
    };
    let channel = rest.channel;
    told_by(why::why(setup, channel, level))
}
