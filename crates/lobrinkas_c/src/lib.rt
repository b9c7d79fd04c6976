// The archive for hosts in C: what include/lobrinkas.h declares, each call as crate `lobrinkas` makes it.
#![tactic(auto)]

ghost use Rattle.std.specs.Prelude.{◌≡◌};
ghost use Rattle.lobrinkas.specs.Calls.{lobrinkas_set_up, order, lobrinkas_post, lobrinkas_step, lobrinkas_run, lobrinkas_cycle_count, lobrinkas_why};

use lobrinkas::{Answer, Counted, Ran, Stepped, Told};
use tally::Tally;

// How many cycles a request takes.
#[unsafe(no_mangle)]
pub extern "C" fn lobrinkas_cycle_count(address: u32, bytes: u32, width: u32, port: u32) -> Counted
    ensures { result ≡ lobrinkas_cycle_count address bytes width port }
{
    lobrinkas::lobrinkas_cycle_count(address, bytes, width, port)
}

// The first image of a set-up, which is a sheet's head as a list of numbers and the length of the master store.
#[unsafe(no_mangle)]
pub extern "C" fn lobrinkas_set_up(image: &mut [u8], head: &[u32], master_length: u32) -> Answer
    ensures value { result ≡ (lobrinkas_set_up image.old head.now master_length).result }
    ensures image_after { image.new ≡ (lobrinkas_set_up image.old head.now master_length).image }
{
    lobrinkas::lobrinkas_set_up(image, head, master_length)
}

// Posts a request.
#[unsafe(no_mangle)]
pub extern "C" fn lobrinkas_post(
    image: &mut [u8],
    length: usize,
    level: u32,
    direction: u32,
    space: u32,
    address: u32,
    bytes: u32,
    offset: u32,
) -> Answer
    ensures value { result ≡ (lobrinkas_post image.old length (order level direction space address bytes offset)).result }
    ensures image_after { image.new ≡ (lobrinkas_post image.old length (order level direction space address bytes offset)).image }
{
    lobrinkas::lobrinkas_post(
        image, length, level, direction, space, address, bytes, offset,
    )
}

// One step.
#[unsafe(no_mangle)]
pub extern "C" fn lobrinkas_step(
    image: &mut [u8],
    length: usize,
    slave: &mut [u8],
    master: &mut [u8],
    tally: Tally,
) -> Stepped
    ensures value { result ≡ (lobrinkas_step image.old length slave.old master.old tally).result }
    ensures image_after { image.new ≡ (lobrinkas_step image.old length slave.old master.old tally).image }
    ensures slave_after { slave.new ≡ (lobrinkas_step image.old length slave.old master.old tally).slave }
    ensures master_after { master.new ≡ (lobrinkas_step image.old length slave.old master.old tally).master }
{
    lobrinkas::lobrinkas_step(image, length, slave, master, tally)
}

// Up to `steps` steps.
#[unsafe(no_mangle)]
pub extern "C" fn lobrinkas_run(
    image: &mut [u8],
    length: usize,
    slave: &mut [u8],
    master: &mut [u8],
    tally: Tally,
    steps: u32,
) -> Ran
    ensures value { result ≡ (lobrinkas_run image.old length slave.old master.old tally steps).result }
    ensures image_after { image.new ≡ (lobrinkas_run image.old length slave.old master.old tally steps).image }
    ensures slave_after { slave.new ≡ (lobrinkas_run image.old length slave.old master.old tally steps).slave }
    ensures master_after { master.new ≡ (lobrinkas_run image.old length slave.old master.old tally steps).master }
{
    lobrinkas::lobrinkas_run(image, length, slave, master, tally, steps)
}

// Why a level waits. The image is only read.
#[unsafe(no_mangle)]
pub extern "C" fn lobrinkas_why(image: &[u8], length: usize, level: u32) -> Told
    ensures { result ≡ lobrinkas_why image.now length level }
{
    lobrinkas::lobrinkas_why(image, length, level)
}
