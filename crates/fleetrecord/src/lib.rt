// Fleet records: the blank one, a fleet that starts, and what refusal 7 asks of a record.
#![tactic(auto)]

ghost use Rattle.std.specs.Prelude.{◌&&◌, ◌≡◌, ◌≤◌, length, Err, min};
ghost use Rattle.basics.specs.Bits.{odd};
ghost use Rattle.basics.specs.Lists.{all_below};
ghost use Rattle.protocol.specs.declared.State.TheVariants.{Running};
ghost use Rattle.protocol.specs.Rules.{opened, truck};
ghost use Rattle.protocol.specs.Fleets.{blank, started, is_empty, two_memory, six_memory, two_counts, chosen, good_state_in, good_truck_in, good_fleet_in};
ghost use Rattle.fleetrecord.specs.Opens.{open_fleet};

use protocol::{Answer, Cycle, Fleet, Heard, Sent, State, Truck};
use refusals::Refusal;

// Running, by a function: by it a truck's state is copied whole, its unused number with it, and the array of `blank` is one fill of zeros.
fn running() -> State
    ensures { result ≡ Running }
{
    State::Running
}

// A truck of a fleet that starts.
pub fn opened(v: u8) -> Truck
    ensures { result ≡ opened v }
{
    Truck {
        opening: v,
        estimate: v,
        mark: false,
        heard: Heard::Nothing,
        unwilling: false,
        state: running(),
        sent: Sent {
            proposals: 0,
            vetoes: 0,
        },
    }
}

// What a refused start or run holds.
pub fn blank() -> Fleet
    ensures { result ≡ blank }
{
    Fleet {
        n: 0,
        done: 0,
        trucks: [opened(0); 32],
    }
}

// A fleet of n trucks before round 1.
fn open_fleet(n: u8, openings: &[u8]) -> Fleet
    requires { (length openings.now ≡ n) × (n ≤ 32) }
    ensures { result ≡ open_fleet n openings.now }
{
    let mut f = blank();
    f.n = n;
    for (i, v) in openings.iter().enumerate() {
        f.trucks[i] = opened(*v);
    }
    f
}

fn is_odd(k: u16) -> bool
    ensures { result ≡ odd k }
{
    k % 2 == 1
}

fn is_empty(mark: bool, heard: Heard) -> bool
    ensures { result ≡ is_empty mark heard }
{
    !mark & (heard == Heard::Nothing)
}

// Trucks decide in round k.
fn decides_in(cycle: Cycle, k: u16) -> bool
    ensures { result ≡ (chosen cycle).decisions k }
{
    match cycle {
        Cycle::TwoRound => !is_odd(k),
        Cycle::SixRound => k % 6 == 0,
    }
}

fn good_state(cycle: Cycle, done: u16, state: State) -> bool
    ensures { result ≡ good_state_in (chosen cycle) done state }
{
    match state {
        State::Running => true,
        State::Stopped(k) => (0 < k) & (k <= done),
        State::Decided(k) => (0 < k) & (k <= done) & decides_in(cycle, k),
    }
}

// The memory is empty where the rounds done are even or the truck isn't running.
fn two_memory(done: u16, t: Truck) -> bool
    ensures { result ≡ two_memory done t }
{
    (is_odd(done) & truck::runs(t)) | is_empty(t.mark, t.heard)
}

// A truck is unwilling only while it runs and 2 to 5 rounds of the cycle are done.
fn six_memory(done: u16, t: Truck) -> bool
    ensures { result ≡ six_memory done t }
{
    !t.unwilling | (truck::runs(t) & (2 <= done % 6))
}

// No more proposals than odd rounds done, and no more vetoes than even ones.
fn two_counts(done: u16, sent: Sent) -> bool
    ensures { result ≡ two_counts done sent }
{
    (u16::from(sent.proposals) <= done.div_ceil(2)) & (u16::from(sent.vetoes) <= done / 2)
}

// What the cycle asks of a truck's memory and counts.
fn good_rest(cycle: Cycle, done: u16, t: Truck) -> bool
    ensures { result ≡ ((chosen cycle).good_memory done t && (chosen cycle).good_counts done t.sent) }
{
    match cycle {
        Cycle::TwoRound => two_memory(done, t) & two_counts(done, t.sent),
        Cycle::SixRound => six_memory(done, t),
    }
}

// What refusal 7 asks of one truck.
pub fn good_truck(cycle: Cycle, done: u16, t: Truck) -> bool
    ensures { result ≡ good_truck_in (chosen cycle) done t }
{
    (t.opening <= 15)
        & (t.estimate <= 15)
        & good_state(cycle, done, t.state)
        & good_rest(cycle, done, t)
}

// The places of n trucks, and at most 32: by that bound the compiler leaves out the checks of a place in a loop.
pub fn places(n: u8) -> usize
    ensures { result ≡ min n 32 }
{
    (n as usize).min(32)
}

// The loop has no way out at a bad truck: a good fleet, as almost every one is, would take a test more for each truck.
fn good_trucks(cycle: Cycle, f: Fleet) -> bool
    requires { f.n ≤ 32 }
    ensures { result ≡ all_below (λ i. good_truck_in (chosen cycle) f.done (truck f.trucks i)) f.n }
{
    let n = f.n as usize;
    let mut ok = true;
    for t in &f.trucks[..n] {
        ok &= good_truck(cycle, f.done, *t);
    }
    ok
}

// Refusal 7 lets the record pass, in this cycle.
pub fn good_fleet(cycle: Cycle, f: Fleet) -> bool
    ensures { result ≡ good_fleet_in (chosen cycle) f }
{
    if recording::bad_trucks(f.n) {
        return false;
    }
    if 400 < f.done {
        return false;
    }
    good_trucks(cycle, f)
}

// A refusal of a call that has no record to hand back.
pub fn refused(refusal: Refusal) -> Answer
    ensures { result ≡ record { outcome = Err refusal; fleet = blank } }
{
    Answer {
        outcome: Err(refusal),
        fleet: blank(),
    }
}

// Starting a fleet of n trucks.
pub fn start(n: u8, openings: &[u8]) -> Answer
    ensures { result ≡ started n openings.now }
{
    if recording::bad_trucks(n) {
        return refused(Refusal::TruckCount);
    }
    if plain::bad_openings(n, openings) {
        return refused(Refusal::Record);
    }
    Answer {
        outcome: Ok(()),
        fleet: open_fleet(n, openings),
    }
}
