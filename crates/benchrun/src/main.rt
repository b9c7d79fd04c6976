// benchrun: a job sheet without its log, for measuring (docs/PERFORMANCE.md). Standard input has a count in four bytes,
// lowest first, and a sheet. As many times the sheet's events are gone through from a fresh channel: a post is posted, and a
// step event is one `run`, or with an argument as many single steps. Then the last channel, the tally and digests of both
// stores are printed, so that another program can be compared with it.
#![tactic(auto)]

ghost use Rattle.std.specs.Prelude.{◌≤◌, length, IfOk};

use basics::PLACES;
use channel::{Channel, Request};
use frame::Setup;
use sheetlist::Event;
use std::env::FillError;
use std::io;
use std::io::{Input, Read};
use std::rt::Env;
use tally::Tally;

// The channel and the tally as the events go on. They and the set-up are handed on by value: behind a reference each call would
// copy them first, and that would be measured too.
#[derive(Clone, Copy)]
struct Session {
    channel: Channel,
    tally: Tally,
}

fn fresh_session() -> Session {
    Session {
        channel: channel::fresh_channel(),
        tally: tally::no_tally(),
    }
}

// Up to `steps` steps, each by its own call.
fn single_steps(
    setup: Setup,
    session: Session,
    slave: &mut [u8],
    master: &mut [u8],
    steps: u32,
) -> Session {
    let mut channel = session.channel;
    let mut tally = session.tally;
    for _ in 0..steps {
        let next = step::step(setup, channel, tally, slave, master);
        channel = next.channel;
        tally = next.tally;
    }
    Session { channel, tally }
}

// Up to `steps` steps by one call.
fn whole_run(
    setup: Setup,
    session: Session,
    slave: &mut [u8],
    master: &mut [u8],
    steps: u32,
) -> Session {
    let ran = step::run(setup, session.channel, session.tally, slave, master, steps);
    Session {
        channel: ran.channel,
        tally: ran.tally,
    }
}

// What the events are gone through with: both stores, and whether each step is a call of its own.
#[derive(Drop)]
struct Job<'a> {
    slave: &'a mut [u8],
    master: &'a mut [u8],
    single: bool,
}

impl Job<'_> {
    fn take_steps(&mut self, setup: Setup, session: Session, steps: u32) -> Session {
        if self.single {
            return single_steps(setup, session, self.slave, self.master, steps);
        }
        whole_run(setup, session, self.slave, self.master, steps)
    }

    fn take_event(&mut self, setup: Setup, session: Session, event: Event) -> Session {
        match event {
            Event::Steps(steps) => self.take_steps(setup, session, steps),
            Event::Post(order) => Session {
                channel: post::post(setup, session.channel, order).channel,
                ..session
            },
        }
    }

    // The events of a valid list, one after the other, from a fresh channel.
    fn take_events(&mut self, setup: Setup, list: &[u32]) -> Session {
        let mut session = fresh_session();
        let mut at = sheetlist::first_event(list);
        for _ in 0..sheetlist::event_count(list) {
            session = self.take_event(setup, session, sheetlist::event_at(list, at));
            at = sheetlist::next_event(list, at);
        }
        session
    }

    // The same events `times` times, over the same stores; what the last time left.
    fn take_rounds(&mut self, setup: Setup, list: &[u32], times: u32) -> Session {
        let mut session = fresh_session();
        for _ in 0..times {
            session = self.take_events(setup, list);
        }
        session
    }

    // The stores at the start, and a run of no steps on a fresh channel. That run is there so that `run` is called at two
    // places: the compiler then keeps it a function of its own, as it is for whoever calls the library, and does not mix it
    // into this program.
    fn prepare(&mut self, setup: Setup) {
        sheethost::fill_master(self.master);
        sheethost::fill_slave(self.slave);
        whole_run(setup, fresh_session(), self.slave, self.master, 0);
    }
}

fn print_number(output: &impl Print, n: u64) -> io::Result<()> {
    println!(output; "{n}")
}

fn print_asked(output: &impl Print, asked: Option<u32>) -> io::Result<()> {
    match asked {
        None => println!(output; "not asked"),
        Some(t) => print_number(output, u64::from(t)),
    }
}

fn print_level(output: &impl Print, inactive: bool, request: Request) -> io::Result<()> {
    print_number(output, u64::from(inactive))?;
    print_number(output, u64::from(request.direction))?;
    print_number(output, u64::from(request.space))?;
    print_number(output, u64::from(request.address))?;
    print_number(output, u64::from(request.left))?;
    print_number(output, u64::from(request.offset))
}

fn print_levels(output: &impl Print, channel: Channel) -> io::Result<()> {
    for i in 0..PLACES {
        print_level(output, channel.inactive[i], channel::request_of(channel, i))?;
    }
    Ok(())
}

fn print_channel(output: &impl Print, channel: Channel) -> io::Result<()> {
    print_number(output, u64::from(channel::owner_of(channel.phase)))?;
    print_asked(output, channel.asked)?;
    print_number(output, u64::from(channel.clock))?;
    print_levels(output, channel)
}

fn print_tally(output: &impl Print, tally: Tally) -> io::Result<()> {
    print_number(output, u64::from(tally.grants))?;
    print_number(output, u64::from(tally.cycles))?;
    print_number(output, u64::from(tally.bytes))?;
    print_number(output, u64::from(tally.hold))
}

fn run_list(output: &impl Print, list: &[u32], times: u32, single: bool) -> io::Result<()> {
    let setup = sheetlist::setup_of(list, 4096);
    let mut slave = [0u8; 65536];
    let mut master = [0u8; 4096];
    let Some(slave) = slave.get_mut(..frame::slave_store_length(setup.slaves)) else {
        return Ok(());
    };
    let mut job = Job {
        slave,
        master: &mut master,
        single,
    };
    job.prepare(setup);
    let session = job.take_rounds(setup, list, times);
    print_channel(output, session.channel)?;
    print_tally(output, session.tally)?;
    print_number(output, sheethost::digest(job.slave))?;
    print_number(output, sheethost::digest(job.master))
}

fn run_sheet(output: &impl Print, sheet: &[u8], times: u32, single: bool) -> io::Result<()> {
    let mut list = [0u32; 7300];
    let Ok(count) = sheet::read_sheet(sheet, &mut list) else {
        return println!(output; "no sheet");
    };
    // the numbers of the sheet are the first `count` of the list
    match list.get(..count) {
        Some(list) => run_list(output, list, times, single),
        None => Ok(()),
    }
}

// Reads until the buffer is full or the input ends; answers how many bytes.
fn read_full(input: &mut impl Read, buf: &mut [u8]) -> io::Result<usize>
    ensures { IfOk result (λ n. n ≤ length buf.new) }
{
    let size = buf.len();
    let mut room = buf;
    let read = io::copy(&mut input.take(size as u64), &mut room)?;
    Ok((read as usize).min(size))
}

fn main(rt: HostRuntime) -> io::Result<()> {
    let mut header = [0u8; 4];
    let mut input = [0u8; 65536];
    let single = !matches!(rt.arg(1, &mut [0u8; 16]), Err(FillError::NotPresent));
    let mut reader = rt.reader();
    if read_full(&mut reader, &mut header)? < 4 {
        return Ok(());
    }
    let got = read_full(&mut reader, &mut input)?;
    run_sheet(&rt, &input[..got], sheethost::four_bytes(header), single)
}
