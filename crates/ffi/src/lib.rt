// The library for callers in other languages: functions on numbers and slices. A slice is passed as a pointer and then a length.
// Each answers document 01's number of the refusal, or 0; a refusal changes nothing that was lent. A name for each cycle, since C has no overloading. What refusal 6 names besides is asked for by the last three.
#![tactic(auto)]

ghost use Rattle.std.specs.Prelude.{◌≡◌, [], ◌∷◌, false, min, Ok, MatchResult};
ghost use Rattle.refusals.specs.Numbers.{number_of, outcome_number};
ghost use Rattle.refusals.specs.Locations.{outcome_location, location_number};
ghost use Rattle.recording.specs.Checks.{bad_trucks};
ghost use Rattle.ffi.specs.Calls.{call_result, opening_call, read_call, write_call};
ghost use Rattle.ffi.specs.Calls.{store_call, run_call_in, run_call, start_call, step_call_in, step_call, list_call};
ghost use Rattle.ffi.specs.Calls.{grade_result, grade_call_in, grade_call};
ghost use Rattle.protocol.specs.Fleets.{six_round, chosen, grade_answer};
ghost use Rattle.ffi.specs.Calls.{recording_own_loss, write_own_loss, round_own_loss};

use protocol::{Answer, Cycle, Grades};
use refusals::Refusal;

fn number(r: Refusal) -> u32
    ensures { result ≡ number_of r }
{
    u32::from(u8::from(r))
}

// The number that a call answers.
pub fn outcome_number(o: Result<(), Refusal>) -> u32
    ensures { result ≡ outcome_number o }
{
    u32::from(refusals::outcome_number(o))
}

fn own_loss(o: Result<(), Refusal>) -> u32
    ensures { result ≡ location_number (outcome_location o) }
{
    refusals::location_number(refusals::outcome_location(o))
}

// Puts the value of an answer into its place, and answers the number: a refusal leaves the place as it was.
fn put<T: Copy>(answer: Result<T, Refusal>, place: &mut T) -> u32
    ensures { MatchResult answer (λ v. (result ≡ 0) × (place.new ≡ v)) (λ r. (result ≡ number_of r) × (place.new ≡ place.old)) }
{
    match answer {
        Ok(value) => {
            *place = value;
            0
        }
        Err(r) => number(r),
    }
}

// The crusher that a truck opens with.
pub fn rajvokshul_opening(lengths: &[u16], metres: &[u16], seconds: &[u16], crusher: &mut u8) -> u32
    ensures { call_result result [] (crusher.new ∷ [])
        ≡ opening_call lengths.now metres.now seconds.now crusher.old }
{
    put(roads::opening_crusher(lengths, metres, seconds), crusher)
}

// Reads a recording to plain form.
pub fn rajvokshul_read(
    bytes: &[u8],
    openings: &mut [u8],
    words: &mut [u32],
    trucks: &mut u32,
    rounds: &mut u32,
) -> u32
    ensures { call_result result (openings.new ∷ words.new ∷ []) (trucks.new ∷ rounds.new ∷ [])
        ≡ read_call bytes.now openings.old words.old trucks.old rounds.old }
{
    match plain::read(bytes, openings, words) {
        Ok(counts) => {
            *trucks = counts.trucks as u32;
            *rounds = counts.rounds as u32;
            0
        }
        Err(r) => number(r),
    }
}

// A count as a narrower number, the largest where it does not fit: every check refuses that one too, for the same reason. (Two functions of one call each, of which
// the first is public.)
pub fn narrow_trucks(n: u32) -> u8
    ensures { result ≡ min n 255 }
{
    u8::try_from(n).unwrap_or(u8::MAX)
}

fn narrow_rounds(k: u32) -> u16
    ensures { result ≡ min k 65535 }
{
    u16::try_from(k).unwrap_or(u16::MAX)
}

// Writes a recording from plain form.
pub fn rajvokshul_write(
    trucks: u32,
    rounds: u32,
    openings: &[u8],
    words: &[u32],
    bytes: &mut [u8],
    written: &mut usize,
) -> u32
    ensures { call_result result (bytes.new ∷ []) (written.new ∷ [])
        ≡ write_call trucks rounds openings.now words.now bytes.old written.old }
{
    let n = narrow_trucks(trucks);
    let k = narrow_rounds(rounds);
    put(plain::write(n, k, openings, words, bytes), written)
}

// Puts the record of an answer into a lent buffer, all 32 places.
fn store(a: Answer, d: &mut [u8]) -> Result<(), Refusal>
    requires { a.outcome ≡ Ok tt → bad_trucks a.fleet.n ≡ false }
    ensures { call_result (outcome_number result) (d.new ∷ []) [] ≡ store_call a d.old }
{
    a.outcome?;
    recordbytes::pack_whole(a.fleet, d)
}

// Runs a recording to its states.
pub fn rajvokshul_run(bytes: &[u8], fleet: &mut [u8]) -> u32
    ensures { call_result result (fleet.new ∷ []) [] ≡ run_call bytes.now fleet.old }
{
    outcome_number(fleet::run_bytes(Cycle::TwoRound, bytes, fleet))
}

// The same in the six-round cycle.
pub fn rajvokshul_run_six(bytes: &[u8], fleet: &mut [u8]) -> u32
    ensures { call_result result (fleet.new ∷ []) [] ≡ run_call_in six_round bytes.now fleet.old }
{
    outcome_number(fleet::run_bytes(Cycle::SixRound, bytes, fleet))
}

// Runs a recording to its listing.
pub fn rajvokshul_list(bytes: &[u8], text: &mut [u8], written: &mut usize) -> u32
    ensures { call_result result (text.new ∷ []) (written.new ∷ []) ≡ list_call bytes.now text.old written.old }
{
    put(listing::list(bytes, text), written)
}

// Puts the grades of an answer into a lent buffer.
fn put_grades(g: Result<Grades, Refusal>, grades: &mut [u16]) -> Result<(), Refusal>
    ensures { call_result (outcome_number result) (grades.new ∷ []) [] ≡ grade_result (grade_answer g) grades.old }
{
    let k = g?;
    if grades.len() < 4 {
        return Err(Refusal::ShortBuffer);
    }
    grades[0] = k.complete;
    grades[1] = k.majority;
    grades[2] = k.zero;
    grades[3] = k.accurate;
    Ok(())
}

// Grades a recording's marks.
pub fn rajvokshul_grade(bytes: &[u8], grades: &mut [u16]) -> u32
    ensures { call_result result (grades.new ∷ []) [] ≡ grade_call bytes.now grades.old }
{
    outcome_number(put_grades(fleet::grade(bytes), grades))
}

// The same in the six-round cycle.
pub fn rajvokshul_grade_six(bytes: &[u8], grades: &mut [u16]) -> u32
    ensures { call_result result (grades.new ∷ []) [] ≡ grade_call_in six_round bytes.now grades.old }
{
    outcome_number(put_grades(fleet::grade_in(Cycle::SixRound, bytes), grades))
}

// Starts a fleet.
pub fn rajvokshul_start(trucks: u32, openings: &[u8], fleet: &mut [u8]) -> u32
    ensures { call_result result (fleet.new ∷ []) [] ≡ start_call trucks openings.now fleet.old }
{
    let a = fleet::start(narrow_trucks(trucks), openings);
    outcome_number(store(a, fleet))
}

// A step of a record as bytes, in a cycle. Both exported steps go through it, so that the compiler makes one piece of it.
fn step_bytes(cycle: Cycle, fleet: &mut [u8], words: &[u32]) -> u32
    ensures { call_result result (fleet.new ∷ []) [] ≡ step_call_in (chosen cycle) fleet.old words.now }
{
    outcome_number(fleet::step_bytes(cycle, fleet, words))
}

// Steps a fleet by a round in plain form.
pub fn rajvokshul_step(fleet: &mut [u8], words: &[u32]) -> u32
    ensures { call_result result (fleet.new ∷ []) [] ≡ step_call fleet.old words.now }
{
    step_bytes(Cycle::TwoRound, fleet, words)
}

// The same in the six-round cycle.
pub fn rajvokshul_step_six(fleet: &mut [u8], words: &[u32]) -> u32
    ensures { call_result result (fleet.new ∷ []) [] ≡ step_call_in six_round fleet.old words.now }
{
    step_bytes(Cycle::SixRound, fleet, words)
}

// Where the own loss bit is for which a recording is refused.
pub fn rajvokshul_recording_own_loss(bytes: &[u8]) -> u32
    ensures { result ≡ recording_own_loss bytes.now }
{
    own_loss(recording::check(bytes))
}

// Where the own loss bit is for which plain form is not written.
pub fn rajvokshul_write_own_loss(trucks: u32, rounds: u32, openings: &[u8], words: &[u32]) -> u32
    ensures { result ≡ write_own_loss trucks rounds openings.now words.now }
{
    let n = narrow_trucks(trucks);
    let k = narrow_rounds(rounds);
    own_loss(plain::check_plain(n, k, openings, words))
}

// Where an own loss bit of one round is, for which a step by that round is refused.
pub fn rajvokshul_round_own_loss(trucks: u32, round: u32, words: &[u32]) -> u32
    ensures { result ≡ round_own_loss trucks round words.now }
{
    let n = narrow_trucks(trucks);
    if recording::bad_trucks(n) | (round == 0) | (400 < round) {
        return 0;
    }
    own_loss(plain::check_round(n, round as u16, words))
}
