// Why an input is refused. Document 01 numbers these conditions; `number_of` in specs/ holds its numbers.
#![tactic(auto)]

ghost use Rattle.std.specs.Prelude.{◌≡◌};
ghost use Rattle.refusals.specs.Numbers.{number_of, outcome_number};
ghost use Rattle.refusals.specs.Locations.{location_of, outcome_location, location_number};

#[derive(Clone, Copy)]
pub enum Refusal {
    // Whoever made the recording.
    ShortRecording,
    TruckCount,
    RoundCount,
    RecordingLength,
    EndBit,
    // It names the earliest round with an own loss bit that is 1, counted from 1, and the lowest such truck of that round.
    OwnLoss { round: u16, truck: u8 },
    // The unit's own software.
    Record,
    PlainRound,
    ShortBuffer,
    // Whoever keeps the road lists.
    RoadLists,
    Seconds,
    NoTime,
    AllIdle,
    // The unit's own software again: document 01 numbers it last.
    RoundsDone,
}

// Where in a recording the cause of a refusal stands: a round, counted from 1, and a truck.
#[derive(Clone, Copy)]
pub struct Location {
    pub round: u16,
    pub truck: u8,
}

// The number under which document 01 lists the refusal.
impl From<Refusal> for u8 {
    ghost from_gives = { λ r n. n ≡ number_of r };

    fn from(r: Refusal) -> u8 {
        match r {
            Refusal::ShortRecording => 1,
            Refusal::TruckCount => 2,
            Refusal::RoundCount => 3,
            Refusal::RecordingLength => 4,
            Refusal::EndBit => 5,
            Refusal::OwnLoss { .. } => 6,
            Refusal::Record => 7,
            Refusal::PlainRound => 8,
            Refusal::ShortBuffer => 9,
            Refusal::RoadLists => 10,
            Refusal::Seconds => 11,
            Refusal::NoTime => 12,
            Refusal::AllIdle => 13,
            Refusal::RoundsDone => 14,
        }
    }
}

// The number of what a check found: 0 where the input is accepted. (A `From` for it can't stand here, since `Result` and `u8` are the library's.)
pub fn outcome_number(o: Result<(), Refusal>) -> u8
    ensures { result ≡ outcome_number o }
{
    match o {
        Ok(()) => 0,
        Err(r) => u8::from(r),
    }
}

// The round and the truck that the refusal names.
pub fn location_of(r: Refusal) -> Option<Location>
    ensures { result ≡ location_of r }
{
    match r {
        Refusal::OwnLoss { round, truck } => Some(Location { round, truck }),
        _ => None,
    }
}

// What the outcome of a check names: nothing where the input is accepted.
pub fn outcome_location(o: Result<(), Refusal>) -> Option<Location>
    ensures { result ≡ outcome_location o }
{
    match o {
        Ok(()) => None,
        Err(r) => location_of(r),
    }
}

// A location as one number, as C is given it: 256 times the round, and the truck; 0 where none is named.
pub fn location_number(p: Option<Location>) -> u32
    ensures { result ≡ location_number p }
{
    match p {
        None => 0,
        Some(at) => at.round as u32 * 256 + at.truck as u32,
    }
}
