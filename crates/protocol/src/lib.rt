// The fleet record and the answers about it. specs/ has the rules of a round, runs, steps and the claim for any cycle of rounds, with document 01's
// two-round protocol and the six-round one of document 02, F-4, as instances; proofs/Demand3 and proofs/SixDemand have the theorems about whole lists of steps
// and whole runs. There is no code here.
#![tactic(auto)]

use refusals::Refusal;

// The cycle of rounds by which a fleet is stepped, or a recording run and graded: proposals and vetoes (document 01), or prepare, four bit rounds and accept
// (document 02, F-4). An enum and no trait: callers choose it by a value, in C by a name, and what depends on it matches.
#[derive(Clone, Copy)]
pub enum Cycle {
    TwoRound,
    SixRound,
}

// How many different values a truck heard in the proposal round.
#[derive(Clone, Copy, PartialEq, Eq)]
pub enum Heard {
    Nothing,
    One,
    Several,
}

// A decided truck's crusher is its estimate; the number is the round of the stop or the decision.
#[derive(Clone, Copy)]
pub enum State {
    Running,
    Stopped(u16),
    Decided(u16),
}

// How many messages of each kind a truck has sent. There are at most 200 rounds of each kind, so a byte holds a count.
#[derive(Clone, Copy)]
pub struct Sent {
    pub proposals: u8,
    pub vetoes: u8,
}

// One truck: its opening and present estimate; what it heard in the proposal round before: whether it had a mark, and how many values; whether it is unwilling
// in the six-round cycle; its state; and how much it has sent. The memory and what it has sent are the two-round cycle's, willingness is the six-round cycle's.
#[derive(Clone, Copy)]
pub struct Truck {
    pub opening: u8,
    pub estimate: u8,
    pub mark: bool,
    pub heard: Heard,
    pub unwilling: bool,
    pub state: State,
    pub sent: Sent,
}

// A fleet of n trucks with some rounds done. Places n and above of the array hold no truck of the fleet: there is no heap, and 32 places serve every fleet.
#[derive(Clone, Copy)]
pub struct Fleet {
    pub n: u8,
    pub done: u16,
    pub trucks: [Truck; 32],
}

// What starting, stepping and running a fleet answer. No `Result` with a fleet: a refused call hands back a record too (the blank one, or the one it was given), of
// which `stepped_in` and the claims on whole lists of steps speak.
#[derive(Clone, Copy)]
pub struct Answer {
    pub outcome: Result<(), Refusal>,
    pub fleet: Fleet,
}

// For each class of marks the first round that breaks it, or 0. Numbers and no `Option`: `grades_for` and `GradesSay` compare them, and C is given them.
#[derive(Clone, Copy)]
pub struct Grades {
    pub complete: u16,
    pub majority: u16,
    pub zero: u16,
    pub accurate: u16,
}
