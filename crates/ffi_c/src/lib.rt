// The static library for C and its like: each function of crate ffi that other languages call, under its own name and by the C calling convention. What each
// answers is said and proved there; it stands in a crate of its own, since other crates rest on `ffi`, and none can rest on a static library.
#![tactic(auto)]

ghost use Rattle.std.specs.Prelude.{◌≡◌, [], ◌∷◌};
ghost use Rattle.protocol.specs.Fleets.{six_round};
ghost use Rattle.ffi.specs.Calls.{call_result, grade_call, grade_call_in, list_call, opening_call, read_call, recording_own_loss, round_own_loss, run_call, run_call_in, start_call, step_call, step_call_in, write_call, write_own_loss};

// The crusher that a truck opens with.
#[unsafe(no_mangle)]
pub extern "C" fn rajvokshul_opening(
    lengths: &[u16],
    metres: &[u16],
    seconds: &[u16],
    crusher: &mut u8,
) -> u32
    ensures { call_result result [] (crusher.new ∷ [])
        ≡ opening_call lengths.now metres.now seconds.now crusher.old }
{
    ffi::rajvokshul_opening(lengths, metres, seconds, crusher)
}

// Reads a recording to plain form.
#[unsafe(no_mangle)]
pub extern "C" fn rajvokshul_read(
    bytes: &[u8],
    openings: &mut [u8],
    words: &mut [u32],
    trucks: &mut u32,
    rounds: &mut u32,
) -> u32
    ensures { call_result result (openings.new ∷ words.new ∷ []) (trucks.new ∷ rounds.new ∷ [])
        ≡ read_call bytes.now openings.old words.old trucks.old rounds.old }
{
    ffi::rajvokshul_read(bytes, openings, words, trucks, rounds)
}

// Writes a recording from plain form.
#[unsafe(no_mangle)]
pub extern "C" fn rajvokshul_write(
    trucks: u32,
    rounds: u32,
    openings: &[u8],
    words: &[u32],
    bytes: &mut [u8],
    written: &mut usize,
) -> u32
    ensures { call_result result (bytes.new ∷ []) (written.new ∷ [])
        ≡ write_call trucks rounds openings.now words.now bytes.old written.old }
{
    ffi::rajvokshul_write(trucks, rounds, openings, words, bytes, written)
}

// Runs a recording to its states.
#[unsafe(no_mangle)]
pub extern "C" fn rajvokshul_run(bytes: &[u8], fleet: &mut [u8]) -> u32
    ensures { call_result result (fleet.new ∷ []) [] ≡ run_call bytes.now fleet.old }
{
    ffi::rajvokshul_run(bytes, fleet)
}

// The same in the six-round cycle.
#[unsafe(no_mangle)]
pub extern "C" fn rajvokshul_run_six(bytes: &[u8], fleet: &mut [u8]) -> u32
    ensures { call_result result (fleet.new ∷ []) [] ≡ run_call_in six_round bytes.now fleet.old }
{
    ffi::rajvokshul_run_six(bytes, fleet)
}

// Runs a recording to its listing.
#[unsafe(no_mangle)]
pub extern "C" fn rajvokshul_list(bytes: &[u8], text: &mut [u8], written: &mut usize) -> u32
    ensures { call_result result (text.new ∷ []) (written.new ∷ []) ≡ list_call bytes.now text.old written.old }
{
    ffi::rajvokshul_list(bytes, text, written)
}

// Grades a recording's marks.
#[unsafe(no_mangle)]
pub extern "C" fn rajvokshul_grade(bytes: &[u8], grades: &mut [u16]) -> u32
    ensures { call_result result (grades.new ∷ []) [] ≡ grade_call bytes.now grades.old }
{
    ffi::rajvokshul_grade(bytes, grades)
}

// The same in the six-round cycle.
#[unsafe(no_mangle)]
pub extern "C" fn rajvokshul_grade_six(bytes: &[u8], grades: &mut [u16]) -> u32
    ensures { call_result result (grades.new ∷ []) [] ≡ grade_call_in six_round bytes.now grades.old }
{
    ffi::rajvokshul_grade_six(bytes, grades)
}

// Starts a fleet.
#[unsafe(no_mangle)]
pub extern "C" fn rajvokshul_start(trucks: u32, openings: &[u8], fleet: &mut [u8]) -> u32
    ensures { call_result result (fleet.new ∷ []) [] ≡ start_call trucks openings.now fleet.old }
{
    ffi::rajvokshul_start(trucks, openings, fleet)
}

// Steps a fleet by a round in plain form.
#[unsafe(no_mangle)]
pub extern "C" fn rajvokshul_step(fleet: &mut [u8], words: &[u32]) -> u32
    ensures { call_result result (fleet.new ∷ []) [] ≡ step_call fleet.old words.now }
{
    ffi::rajvokshul_step(fleet, words)
}

// The same in the six-round cycle.
#[unsafe(no_mangle)]
pub extern "C" fn rajvokshul_step_six(fleet: &mut [u8], words: &[u32]) -> u32
    ensures { call_result result (fleet.new ∷ []) [] ≡ step_call_in six_round fleet.old words.now }
{
    ffi::rajvokshul_step_six(fleet, words)
}

// Where the own loss bit is for which a recording is refused.
#[unsafe(no_mangle)]
pub extern "C" fn rajvokshul_recording_own_loss(bytes: &[u8]) -> u32
    ensures { result ≡ recording_own_loss bytes.now }
{
    ffi::rajvokshul_recording_own_loss(bytes)
}

// Where the own loss bit is for which plain form is not written.
#[unsafe(no_mangle)]
pub extern "C" fn rajvokshul_write_own_loss(
    trucks: u32,
    rounds: u32,
    openings: &[u8],
    words: &[u32],
) -> u32
    ensures { result ≡ write_own_loss trucks rounds openings.now words.now }
{
    ffi::rajvokshul_write_own_loss(trucks, rounds, openings, words)
}

// Where an own loss bit of one round is, for which a step by that round is refused.
#[unsafe(no_mangle)]
pub extern "C" fn rajvokshul_round_own_loss(trucks: u32, round: u32, words: &[u32]) -> u32
    ensures { result ≡ round_own_loss trucks round words.now }
{
    ffi::rajvokshul_round_own_loss(trucks, round, words)
}
