// The step and the run with the tally that the host lends (document 01, "One step": "There is a tally the host lends").
// Each gives back what the form by value gives, and leaves the new tally behind the reference.
#![tactic(auto)]

ghost use Rattle.std.specs.Prelude.{◌≡◌};
ghost use Rattle.step.specs.Step.{step_of, slave_after, master_after};
ghost use Rattle.step.specs.Run.{world, run_of};

use channel::Channel;
use frame::Setup;
use step::{Ran, Stepped};
use tally::Tally;

// One step with the lent tally. A refused step leaves the tally, gives back the channel that it got and writes to no store.
pub fn step(
    setup: Setup,
    channel: Channel,
    tally: &mut Tally,
    slave: &mut [u8],
    master: &mut [u8],
) -> Stepped
    ensures value { result ≡ step_of setup channel tally.old slave.old master.old }
    ensures tally_after { tally.new ≡ (step_of setup channel tally.old slave.old master.old).tally }
    ensures slave_after { slave.new ≡ slave_after setup channel slave.old master.old }
    ensures master_after { master.new ≡ master_after setup channel slave.old master.old }
{
    let next = step::step(setup, channel, *tally, slave, master);
    *tally = next.tally;
    next
}

// A run of up to `budget` steps with the lent tally. A refused run leaves it; one that meets 6 has added the steps done.
pub fn run(
    setup: Setup,
    channel: Channel,
    tally: &mut Tally,
    slave: &mut [u8],
    master: &mut [u8],
    budget: u32,
) -> Ran
    ensures value { result ≡ (run_of setup budget (world channel tally.old slave.old master.old)).result }
    ensures tally_after { tally.new ≡ (run_of setup budget (world channel tally.old slave.old master.old)).result.tally }
    ensures slave_after { slave.new ≡ (run_of setup budget (world channel tally.old slave.old master.old)).slave }
    ensures master_after { master.new ≡ (run_of setup budget (world channel tally.old slave.old master.old)).master }
{
    let next = step::run(setup, channel, *tally, slave, master, budget);
    *tally = next.tally;
    next
}
