// The examples of document 01, "Both sides of the line", that are run and compared: a burst that lingers, asked at its
// grant, holds the channel for exactly 7,800 ns; and nothing wraps at the end of the address space.
#![tactic(auto)]

ghost use Rattle.std.specs.Prelude.{◌≡◌};
ghost use Rattle.step.specs.Run.{world, run_of};

use basics::{ROWS_MOST, SYSTEM_MASTER_U32};
use channel::Channel;
use frame::{LevelRow, LevelRows, NO_LEVEL, NO_SLAVE, Order, Setup, SlaveRow, SlaveRows};
use std::io::Write;
use std::{io, str};
use tally::Tally;

fn levels() -> LevelRows {
    let mut rows = [NO_LEVEL; ROWS_MOST];
    // a digitiser that bursts and lingers, a counter that waits, and the system master
    rows[0] = LevelRow {
        level: 3,
        width: 4,
        options: 5,
    };
    rows[1] = LevelRow {
        level: 7,
        width: 2,
        options: 0,
    };
    rows[2] = LevelRow {
        level: SYSTEM_MASTER_U32,
        width: 4,
        options: 0,
    };
    LevelRows { rows, count: 3 }
}

fn slaves(port: u32, time: u32) -> SlaveRows {
    let mut rows = [NO_SLAVE; ROWS_MOST];
    rows[0] = SlaveRow {
        space: 1,
        base: 4096,
        length: 8192,
        port,
        time,
    };
    SlaveRows { rows, count: 1 }
}

fn frame_with(port: u32, time: u32) -> Setup {
    Setup {
        levels: levels(),
        slaves: slaves(port, time),
        master: 4096,
    }
}

fn order(level: u32, address: u32, length: u32) -> Order {
    Order {
        level,
        direction: 1,
        space: 1,
        address,
        length,
        offset: 0,
    }
}

// Both levels ask before the first arbitration: the burst is asked at its grant.
fn contended(setup: Setup) -> Channel {
    let fresh = channel::set_up(setup).channel;
    let first = post::post(setup, fresh, order(3, 4096, 4096)).channel;
    post::post(setup, first, order(7, 8192, 2)).channel
}

// The tally after a run, to which it was lent.
fn tally_of(
    setup: Setup,
    channel: Channel,
    start: Tally,
    slave: &mut [u8],
    master: &mut [u8],
    steps: u32,
) -> Tally
    ensures { result ≡ (run_of setup steps (world channel start slave.old master.old)).result.tally }
{
    let mut tally = start;
    lent::run(setup, channel, &mut tally, slave, master, steps);
    tally
}

// The cycles that have run and the longest hold, after `steps` steps.
fn show(output: &impl Print, setup: Setup, steps: u32) -> io::Result<()> {
    let mut slave = [0u8; 8192];
    let mut master = [1u8; 4096];
    let channel = contended(setup);
    let figures = tally_of(
        setup,
        channel,
        tally::no_tally(),
        &mut slave,
        &mut master,
        steps,
    );
    print_pair(output, figures.cycles, figures.hold)
}

fn print_pair(output: &impl Print, a: u32, b: u32) -> io::Result<()> {
    println!(output; "{a} {b}")
}

// Two runs, of which the second has one step more: the last cycle of the burst.
fn show_both(output: &impl Print, setup: Setup, steps: u32, more: u32) -> io::Result<()> {
    show(output, setup, steps)?;
    show(output, setup, more)
}

fn show_all(output: &impl Print) -> io::Result<()> {
    // W and P of 4, 200 ns: the 39th transfer is the last
    show_both(output, frame_with(4, 200), 39, 40)?;
    // 300 ns: the 26th
    show_both(output, frame_with(4, 300), 26, 27)?;
    // P of 1, 1,950 ns: one transfer, of four cycles
    show_both(output, frame_with(1, 1950), 4, 5)?;
    // a post at address 4,294,967,295 with length 4,096: refusal 4
    let setup = frame_with(4, 200);
    let fresh = channel::set_up(setup).channel;
    let verdict = post::post(setup, fresh, order(3, 4294967295, 4096)).verdict;
    print_pair(output, u32::from(refusal::verdict_number(verdict)), 0)
}

// Why the output could not be written, in the system's own words: an error's text without the number that std writes after it.
fn tell(rt: &impl Eprint, error: io::Error) -> io::Result<()> {
    let mut buffer = [0u8; 128];
    let mut rest = &mut buffer[..];
    write!(rest, "{error}")?;
    let size = 128usize.saturating_sub(rest.len());
    let text = str::from_utf8(&buffer[..size]).unwrap_or("");
    let words = text.split(" (os error ").next().unwrap_or(text);
    eprintln!(rt; "bursts: standard output: {words}")
}

// A run that could not be shown is told, and the status is 0 all the same.
fn main(rt: HostRuntime) {
    if let Err(error) = show_all(&rt) {
        let _ = tell(&rt, error);
    }
}
