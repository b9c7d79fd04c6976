// One sheet: its judgement, its events one after the other, and its log, in a buffer that is written where it is full. Where a
// write fails nothing more is run or written.
use crate::failure::Failure;
use crate::streams::write_first;
use crate::{LARGE, MASTER};
use channel::Channel;
use frame::{Order, Setup};
use number::Fault;
use sheetlist::Event;
use tally::Tally;

// What a run is asked for: the levels of which it is told in the place of the log why they wait, and the line of digests after
// each sheet.
#[derive(Clone, Copy)]
pub(crate) struct Asked<'a> {
    pub(crate) levels: &'a [u32],
    pub(crate) digests: bool,
}

// What sheets are run over: both stores, and the page that holds the lines of a log until they are written. It is made once for all
// sheets: to make it anew takes longer than a short sheet does.
#[derive(Drop)]
pub(crate) struct Room<'a> {
    pub(crate) slave: &'a mut [u8; LARGE],
    pub(crate) master: &'a mut [u8; MASTER],
    pub(crate) page: &'a mut [u8; LARGE],
}

// A sheet as its events are run: the channel and the tally go on from event to event, and the page has the lines that are not
// written yet, up to where it is filled.
#[derive(Drop)]
pub(crate) struct Session<'a> {
    pub(crate) setup: Setup,
    pub(crate) channel: Channel,
    pub(crate) tally: Tally,
    pub(crate) slave: &'a mut [u8],
    pub(crate) master: &'a mut [u8],
    pub(crate) page: &'a mut [u8],
    pub(crate) filled: usize,
}

impl Session<'_> {
    // Where the next line begins: the page is written first where the line may not fit.
    pub(crate) fn line_start(&mut self, output: &impl Print) -> Result<usize, Failure> {
        let filled = self.filled;
        if logline::has_room(self.page.len(), filled) {
            return Ok(filled);
        }
        write_first(output, self.page, filled)?;
        self.filled = 0;
        Ok(0)
    }

    // The line of an event that ends where the clock is full.
    fn log_stop(&mut self, output: &impl Print) -> Result<(), Failure> {
        let at = self.line_start(output)?;
        let clock = self.channel.clock;
        self.filled = logline::put_stop(self.page, at, clock);
        Ok(())
    }

    // Up to `steps` steps, each with its line, as many at once as the page has room for; a step that meets 6 ends the event.
    fn log_steps(&mut self, output: &impl Print, steps: u32) -> Result<(), Failure> {
        let mut rest = steps;
        while 0 < rest {
            let at = self.line_start(output)?;
            let logged = step::log_run(
                self.setup,
                self.channel,
                self.tally,
                self.slave,
                self.master,
                self.page,
                at,
                rest,
            );
            let ran = logged.ran;
            self.channel = ran.channel;
            self.tally = ran.tally;
            self.filled = logged.end;
            let Ok(()) = ran.verdict else {
                return self.log_stop(output);
            };
            if ran.steps == 0 {
                return Err(Failure::NoRoom);
            }
            rest = basics::less(rest, ran.steps);
        }
        Ok(())
    }

    fn log_post(&mut self, output: &impl Print, order: Order) -> Result<(), Failure> {
        let at = self.line_start(output)?;
        let judged = post::post(self.setup, self.channel, order);
        self.channel = judged.channel;
        let clock = judged.channel.clock;
        let number = u32::from(refusal::verdict_number(judged.verdict));
        self.filled = logline::put_post(self.page, at, clock, order.level, number);
        Ok(())
    }

    fn log_event(&mut self, output: &impl Print, event: Event) -> Result<(), Failure> {
        match event {
            Event::Steps(steps) => self.log_steps(output, steps),
            Event::Post(order) => self.log_post(output, order),
        }
    }

    // The last line.
    fn log_end(&mut self, output: &impl Print) -> Result<(), Failure> {
        let at = self.line_start(output)?;
        let clock = self.channel.clock;
        let bytes = self.tally.bytes;
        self.filled = logline::put_end(self.page, at, clock, bytes);
        Ok(())
    }

    // An event, the i-th from 0 on: with its log lines, or with the answers of the levels after it.
    fn take_event(
        &mut self,
        output: &impl Print,
        event: Event,
        i: usize,
        levels: &[u32],
    ) -> Result<(), Failure> {
        if levels.is_empty() {
            return self.log_event(output, event);
        }
        self.tell_event(output, event, i, levels)
    }

    // The events of a valid list, one after the other, and the last line, which answers have not.
    fn take_events(
        &mut self,
        output: &impl Print,
        list: &[u32],
        levels: &[u32],
    ) -> Result<(), Failure> {
        let mut at = sheetlist::first_event(list);
        for i in 0..sheetlist::event_count(list) {
            self.take_event(output, sheetlist::event_at(list, at), i, levels)?;
            at = sheetlist::next_event(list, at);
        }
        if levels.is_empty() {
            self.log_end(output)?;
        }
        let filled = self.filled;
        write_first(output, self.page, filled)
    }
}

// The line of the digests of both stores and of the tally.
fn print_digests(
    output: &impl Print,
    slave: u64,
    master: u64,
    tally: Tally,
) -> Result<(), Failure> {
    let Tally {
        grants,
        cycles,
        bytes,
        hold,
    } = tally;
    println!(output; "D {slave} {master} {grants} {cycles} {bytes} {hold}").map_err(Failure::Output)
}

// A bad sheet prints only its refusal and the place. No event runs: the digests are of no slave store, and of the master store
// as it begins.
fn log_fault(output: &impl Print, fault: Fault, room: Room, digests: bool) -> Result<(), Failure> {
    let number = u32::from(refusal::refusal_number(fault.why));
    if 65535 < fault.place {
        return Err(Failure::NoRoom);
    }
    let filled = logline::put_fault(room.page, 0, number, fault.place as u32);
    write_first(output, room.page, filled)?;
    if digests {
        sheethost::fill_master(room.master);
        let slave = sheethost::digest(b"");
        let master = sheethost::digest(room.master);
        return print_digests(output, slave, master, tally::no_tally());
    }
    Ok(())
}

fn log_list(output: &impl Print, list: &[u32], room: Room, asked: Asked) -> Result<(), Failure> {
    let setup = sheetlist::setup_of(list, 4096);
    let size = frame::slave_store_length(setup.slaves);
    let Room {
        slave,
        master,
        page,
    } = room;
    let slave = slave.get_mut(..size).ok_or(Failure::NoRoom)?;
    sheethost::fill_slave(slave);
    sheethost::fill_master(master);
    let mut session = Session {
        setup,
        channel: channel::fresh_channel(),
        tally: tally::no_tally(),
        slave,
        master,
        page,
        filled: 0,
    };
    session.take_events(output, list, asked.levels)?;
    if asked.digests {
        let slave = sheethost::digest(session.slave);
        let master = sheethost::digest(session.master);
        return print_digests(output, slave, master, session.tally);
    }
    Ok(())
}

// One sheet, whole: its log, or where levels are asked about, why they wait.
pub(crate) fn run_sheet(
    output: &impl Print,
    sheet: &[u8],
    room: Room,
    asked: Asked,
) -> Result<(), Failure> {
    let mut list = [0u32; 7300];
    match sheet::read_sheet(sheet, &mut list) {
        Err(fault) => log_fault(output, fault, room, asked.digests),
        // the numbers of the sheet are the first `count` of the list
        Ok(count) => log_list(
            output,
            list.get(..count).ok_or(Failure::NoRoom)?,
            room,
            asked,
        ),
    }
}
