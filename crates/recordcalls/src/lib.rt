// Steps of a whole record, each truck brought up to date where it stands, for tests in other languages: the bytes are taken for a record, and the record is put
// back. It is no part of the library that is handed out, whose steps go from bytes to bytes; both have the same contracts.
#![tactic(auto)]

ghost use Rattle.std.specs.Prelude.{◌≡◌, [], ◌∷◌};
ghost use Rattle.refusals.specs.Numbers.{outcome_number};
ghost use Rattle.protocol.specs.Fleets.{six_round, chosen, stepped_in};
ghost use Rattle.recordbytes.specs.Layout.{unpacked};
ghost use Rattle.ffi.specs.Calls.{call_result, start_call, step_call_in, step_call};
ghost use Rattle.recordcalls.specs.Calls.{put_call};

use protocol::{Answer, Cycle, Fleet};
use refusals::Refusal;

// Starts a fleet.
#[unsafe(no_mangle)]
pub extern "C" fn recordcalls_start(trucks: u32, openings: &[u8], fleet: &mut [u8]) -> u32
    ensures { call_result result (fleet.new ∷ []) [] ≡ start_call trucks openings.now fleet.old }
{
    let a = fleet::start(ffi::narrow_trucks(trucks), openings);
    match a.outcome {
        Ok(()) => ffi::outcome_number(recordbytes::pack_whole(a.fleet, fleet)),
        Err(r) => ffi::outcome_number(Err(r)),
    }
}

// A step in a cycle. That of two rounds goes by `step`, which these tests try too.
fn stepped(cycle: Cycle, f: Fleet, words: &[u32]) -> Answer
    ensures { result ≡ stepped_in (chosen cycle) f words.now }
{
    match cycle {
        Cycle::TwoRound => fleet::step(f, words),
        Cycle::SixRound => fleet::step_in(Cycle::SixRound, f, words),
    }
}

// Brings the record of an answer up to date in a lent buffer.
fn put(a: Answer, d: &mut [u8]) -> Result<(), Refusal>
    ensures { call_result (outcome_number result) (d.new ∷ []) [] ≡ put_call a d.old }
{
    a.outcome?;
    recordbytes::pack(a.fleet, d)
}

// A step of a record as bytes by way of the record that they are.
fn step_record(cycle: Cycle, fleet: &mut [u8], words: &[u32]) -> Result<(), Refusal>
    ensures { call_result (outcome_number result) (fleet.new ∷ []) [] ≡ step_call_in (chosen cycle) fleet.old words.now }
{
    let u = recordbytes::unpack(fleet);
    u.outcome?;
    let a = stepped(cycle, u.fleet, words);
    put(a, fleet)
}

// Steps a fleet by a round in plain form.
#[unsafe(no_mangle)]
pub extern "C" fn recordcalls_step(fleet: &mut [u8], words: &[u32]) -> u32
    ensures { call_result result (fleet.new ∷ []) [] ≡ step_call fleet.old words.now }
{
    ffi::outcome_number(step_record(Cycle::TwoRound, fleet, words))
}

// The same in the six-round cycle.
#[unsafe(no_mangle)]
pub extern "C" fn recordcalls_step_six(fleet: &mut [u8], words: &[u32]) -> u32
    ensures { call_result result (fleet.new ∷ []) [] ≡ step_call_in six_round fleet.old words.now }
{
    ffi::outcome_number(step_record(Cycle::SixRound, fleet, words))
}

// Puts the record of some bytes into another buffer: places n and above stay as they are there.
#[unsafe(no_mangle)]
pub extern "C" fn recordcalls_copy(fleet: &[u8], copy: &mut [u8]) -> u32
    ensures { call_result result (copy.new ∷ []) [] ≡ put_call (unpacked fleet.now) copy.old }
{
    let u = recordbytes::unpack(fleet);
    ffi::outcome_number(put(u, copy))
}
