// Recordings run and graded from their bytes, by sets of trucks.
#![tactic(auto)]

ghost use Rattle.std.specs.Prelude.{◌≡◌};
ghost use Rattle.protocol.specs.Fleets.{chosen, ran_in, graded_in, ran, graded};
ghost use Rattle.playback.specs.Bytes.{run_check_in, run_bytes_in};

use protocol::{Answer, Cycle, Grades};
use refusals::Refusal;
use replay::Frame;

mod grading;
pub mod hearing;
mod listening;
mod replay;
mod six;

// Running a recording in a cycle: all its rounds.
pub fn run_in(cycle: Cycle, s: &[u8]) -> Answer
    ensures { result ≡ ran_in (chosen cycle) s.now }
{
    match recording::check(s) {
        Ok(()) => {
            let frame = Frame { bytes: s };
            Answer {
                outcome: Ok(()),
                fleet: replay::ran(cycle, &frame),
            }
        }
        Err(refusal) => fleetrecord::refused(refusal),
    }
}

// Running a recording in the two-round cycle, the name that the pages give to callers.
pub fn run(s: &[u8]) -> Answer
    ensures { result ≡ ran s.now }
{
    run_in(Cycle::TwoRound, s)
}

// Running a recording in a cycle to a whole record as bytes.
pub fn run_bytes(cycle: Cycle, s: &[u8], d: &mut [u8]) -> Result<(), Refusal>
    ensures answer { result ≡ run_check_in (chosen cycle) s.now d.old }
    ensures buffer { d.new ≡ run_bytes_in (chosen cycle) s.now d.old }
{
    recording::check(s)?;
    if d.len() < 323 {
        return Err(Refusal::ShortBuffer);
    }
    let frame = Frame { bytes: s };
    replay::run_into(cycle, &frame, d);
    Ok(())
}

// Grading a recording in a cycle.
pub fn grade_in(cycle: Cycle, s: &[u8]) -> Result<Grades, Refusal>
    ensures { result ≡ graded_in (chosen cycle) s.now }
{
    recording::check(s)?; // grading refuses for nothing else
    let frame = Frame { bytes: s };
    Ok(replay::graded(cycle, &frame))
}

// Grading a recording in the two-round cycle, the name that the pages give to callers.
pub fn grade(s: &[u8]) -> Result<Grades, Refusal>
    ensures { result ≡ graded s.now }
{
    grade_in(Cycle::TwoRound, s)
}
