// One round in plain form makes of a fleet record the next. Bit j of a word and of a set says something of truck j.
ghost use Rattle.std.specs.Prelude.{◌≡◌, not, ◌&&◌, ℕ, ◌<◌, ◌≤◌, ◌+◌, length, replicate, Ok};
ghost use Rattle.basics.specs.Lists.{filled};
ghost use Rattle.protocol.specs.Rules.{runs};
ghost use Rattle.protocol.specs.Fleets.{chosen, step_check_in, next_fleet_in};
ghost use Rattle.sets.specs.Sets.{Members};
ghost use Rattle.fleet.specs.Rounds.{six_phase, phase_of, message_in, sends_in, stop_event, event_of, event_by, event_at, no_events};
ghost use Rattle.playback.specs.Sets.{Sorted, estimates};

use crate::trucks::Trucks;
use playback::hearing::{Values, heard_by, values_of};
use protocol::{Cycle, Fleet, Truck};
use truck::Event;

// What a round of a cycle is for; a bit round has what its bit is worth.
#[derive(Clone, Copy)]
pub enum Phase {
    Proposals,
    Vetoes,
    Prepare,
    Bit(u8),
    Accept,
}

// The next round of the six-round cycle, with so many of its rounds done.
fn six_phase(done: u16) -> Phase
    requires { done < 6 }
    ensures { result ≡ six_phase done }
{
    match done {
        0 => Phase::Prepare,
        5 => Phase::Accept,
        _ => Phase::Bit(1 << (4 - done)),
    }
}

// The next round, with so many done.
pub(crate) fn phase_of(cycle: Cycle, done: u16) -> Phase
    ensures { result ≡ phase_of cycle done }
{
    match cycle {
        Cycle::TwoRound => {
            if done % 2 == 0 {
                Phase::Proposals
            } else {
                Phase::Vetoes
            }
        }
        Cycle::SixRound => six_phase(done % 6),
    }
}

// Whether a truck that runs has something to send.
fn message(phase: Phase, t: Truck, active: bool) -> bool
    ensures { result ≡ message_in phase active t }
{
    match phase {
        Phase::Proposals => active,
        Phase::Vetoes => truck::vetoes(t),
        Phase::Prepare => active,
        Phase::Bit(worth) => t.estimate & worth != 0,
        Phase::Accept => t.unwilling,
    }
}

// Whether a truck sends.
fn sends(phase: Phase, t: Truck, stop: bool, active: bool) -> bool
    ensures { result ≡ ((runs t && not stop) && message_in phase active t) }
{
    let has = message(phase, t, active);
    truck::runs(t) & !stop & has
}

// The senders of the next round, in one pass with the senders of each crusher and the estimate that each truck holds, so that a record is looked at once. Nobody asks
// for the crushers' senders but in rounds in which estimates are sent. The caller lends the arrays: a round that is made here with an array in it is copied whole.
pub(crate) fn senders_of<R: Trucks>(
    phase: Phase,
    words: &[u32],
    trucks: &R,
    values: &mut [u32; 16],
    held: &mut [u8; 32],
) -> u32
    requires { ((R.fleet trucks.now).n ≤ 32) × (length words.now ≡ 3 + (R.fleet trucks.now).n)
        × ((j : ℕ) → j < (R.fleet trucks.now).n → estimates (R.fleet trucks.now).trucks j < 16) × (values.old ≡ replicate 16 0) }
    ensures senders { Members result (R.fleet trucks.now).n (sends_in phase words.now (R.fleet trucks.now).trucks) }
    ensures sorted { Sorted values.new (R.fleet trucks.now).n result (estimates (R.fleet trucks.now).trucks) }
    ensures kept { held.new ≡ filled (estimates (R.fleet trucks.now).trucks) (R.fleet trucks.now).n held.old }
{
    let stop = words[0];
    let active = words[1];
    let mut senders = 0;
    for i in 0..trucks.count() {
        let t = trucks.truck(i);
        let joins = sends(phase, t, sets::holds(stop, i), sets::holds(active, i));
        let c = t.estimate as usize;
        held[i] = t.estimate;
        senders = sets::union_where(senders, sets::only(i), joins);
        values[c] = sets::union_where(values[c], sets::only(i), joins);
    }
    senders
}

// A stop in a round.
fn stop_event(phase: Phase) -> Event
    ensures { result ≡ stop_event phase }
{
    match phase {
        Phase::Proposals | Phase::Vetoes => Event::Stop,
        Phase::Prepare | Phase::Bit(_) | Phase::Accept => Event::StopSix,
    }
}

// A round of the trucks of a record.
#[derive(Clone, Copy)]
pub(crate) struct Round<'a> {
    pub(crate) phase: Phase,
    pub(crate) words: &'a [u32],
    // Who sends in it, and the senders of each crusher.
    pub(crate) senders: u32,
    pub(crate) values: &'a [u32; 16],
}

impl<'a> Round<'a> {
    // What the round is to a truck, by its stop bit, whether it sends, its mark, the senders it hears and its estimate.
    #[tactic(auto, unfolding(crate::specs::Rounds::event_of))]
    fn event_of(&self, stop: bool, sends: bool, mark: bool, heard: u32, estimate: u8) -> Event
        ensures { result ≡ event_of self.now.phase stop sends mark heard self.now.values.now estimate }
    {
        if stop {
            return stop_event(self.phase);
        }
        let veto = heard != 0;
        let noticed = mark | veto;
        match self.phase {
            Phase::Proposals => {
                let Values { heard, least } = values_of(self.values, heard, estimate);
                Event::Proposals {
                    sends,
                    mark,
                    heard,
                    least,
                }
            }
            Phase::Vetoes => Event::Vetoes { sends, mark, veto },
            Phase::Prepare => Event::Prepare {
                mark,
                least: values_of(self.values, heard, estimate).least,
            },
            Phase::Bit(_) => Event::Bit {
                bit: sends,
                noticed,
            },
            Phase::Accept => Event::Accept { noticed },
        }
    }

    // What the round is to truck i, which has an estimate.
    pub(crate) fn event_by(&self, estimate: u8, i: usize) -> Event
        requires { (i < 32) × (3 + i < length self.now.words.now) }
        ensures { result ≡ event_by self.now.phase self.now.words.now self.now.senders self.now.values.now estimate i }
    {
        let heard = heard_by(self.senders, self.words[3 + i], sets::only(i));
        self.event_of(
            sets::holds(self.words[0], i),
            sets::holds(self.senders, i),
            sets::holds(self.words[2], i),
            heard,
            estimate,
        )
    }

    // What the round is to each of n trucks, by the estimates that they hold.
    fn events_of(&self, n: u8, held: &[u8; 32]) -> [Event; 32]
        requires { (n ≤ 32) × (length self.now.words.now ≡ 3 + n) }
        ensures { result ≡ filled (event_at self.now.phase self.now.words.now self.now.senders self.now.values.now held.now) n no_events }
    {
        let mut events = [Event::Stop; 32];
        for i in 0..fleetrecord::places(n) {
            events[i] = self.event_by(held[i], i);
        }
        events
    }
}

// The record after an accepted step.
#[tactic(auto, using(crate::proofs::Steps::step_good))]
pub(crate) fn next_fleet(cycle: Cycle, f: Fleet, words: &[u32]) -> Fleet
    requires { step_check_in (chosen cycle) f words.now ≡ Ok tt }
    ensures { result ≡ next_fleet_in (chosen cycle) f words.now }
{
    let phase = phase_of(cycle, f.done);
    let mut values = [0u32; 16];
    let mut held = [0u8; 32];
    let senders = senders_of(phase, words, &f, &mut values, &mut held);
    let round = Round {
        phase,
        words,
        senders,
        values: &values,
    };
    let events = round.events_of(f.n, &held);
    let done = f.done + 1;
    let mut fleet = truck::update_first(f, f.n as usize, done, events);
    fleet.done = done;
    fleet
}
