// Fleets of trucks: started, stepped, run through a recording, and graded.
#![tactic(auto)]

ghost use Rattle.std.specs.Prelude.{◌≡◌};
ghost use Rattle.protocol.specs.Fleets.{chosen, step_check_in, stepped_in, stepped};
ghost use Rattle.fleet.specs.Bytes.{bytes_check_in, bytes_step_in};

use protocol::{Answer, Cycle, Fleet};
use refusals::Refusal;

mod bytes;
mod round;
mod trucks;

// Starting a fleet.
pub use fleetrecord::start;

// Running and grading a recording.
pub use playback::{grade, grade_in, run, run_bytes, run_in};

fn check_step(cycle: Cycle, f: Fleet, words: &[u32]) -> Result<(), Refusal>
    ensures { result ≡ step_check_in (chosen cycle) f words.now }
{
    if !fleetrecord::good_fleet(cycle, f) {
        return Err(Refusal::Record);
    }
    if f.done == 400 {
        return Err(Refusal::RoundsDone);
    }
    plain::check_round(f.n, f.done + 1, words)
}

// A step in a cycle by a round in plain form.
pub fn step_in(cycle: Cycle, f: Fleet, words: &[u32]) -> Answer
    ensures { result ≡ stepped_in (chosen cycle) f words.now }
{
    match check_step(cycle, f, words) {
        Ok(()) => Answer {
            outcome: Ok(()),
            fleet: round::next_fleet(cycle, f, words),
        },
        Err(refusal) => Answer {
            outcome: Err(refusal),
            fleet: f,
        },
    }
}

// A step of the two-round cycle, the name that the pages give to callers.
pub fn step(f: Fleet, words: &[u32]) -> Answer
    ensures { result ≡ stepped f words.now }
{
    step_in(Cycle::TwoRound, f, words)
}

// A step of a record as bytes, in a cycle, by a round in plain form.
pub fn step_bytes(cycle: Cycle, d: &mut [u8], words: &[u32]) -> Result<(), Refusal>
    ensures answer { result ≡ bytes_check_in (chosen cycle) d.old words.now }
    ensures buffer { d.new ≡ bytes_step_in (chosen cycle) d.old words.now }
{
    bytes::check(cycle, d, words)?;
    bytes::next_bytes(cycle, d, words);
    Ok(())
}
