// The answers of a sheet: after each event why a level waits, in words (document 02, CR 3), in the place of the log.
use crate::failure::Failure;
use crate::log::Session;
use sheetlist::Event;
use why::Reason;

impl Session<'_> {
    // The channel and the tally after an event. A run that meets 6 stops there, and the next event goes on.
    fn play_event(&mut self, event: Event) {
        match event {
            Event::Steps(steps) => {
                let ran = step::run(
                    self.setup,
                    self.channel,
                    self.tally,
                    self.slave,
                    self.master,
                    steps,
                );
                self.channel = ran.channel;
                self.tally = ran.tally;
            }
            Event::Post(order) => {
                self.channel = post::post(self.setup, self.channel, order).channel;
            }
        }
    }

    // The line of one level. No channel that a sheet leads to is unsound, so the question is not refused.
    fn tell_level(&mut self, output: &impl Print, event: u32, level: u32) -> Result<(), Failure> {
        let at = self.line_start(output)?;
        let reason = why::why(self.setup, self.channel, level).unwrap_or(Reason::NotPresent);
        let clock = self.channel.clock;
        self.filled = whyline::put_told(self.page, at, event, clock, level, reason);
        Ok(())
    }

    // One event, and then the lines of the levels that are asked about. Its number is counted from 1; no list has more than 1,024.
    pub(crate) fn tell_event(
        &mut self,
        output: &impl Print,
        event: Event,
        before: usize,
        levels: &[u32],
    ) -> Result<(), Failure> {
        self.play_event(event);
        for level in levels {
            self.tell_level(output, number_after(before), *level)?;
        }
        Ok(())
    }
}

fn number_after(before: usize) -> u32 {
    before.min(65534) as u32 + 1
}
