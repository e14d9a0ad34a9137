// One round in plain form makes of a fleet record as bytes the next, place by place: no whole record is built, which is most of what a step of few trucks takes.
ghost use Rattle.std.specs.Prelude.{◌≡◌, false, ◌+◌, ◌≤◌, length, Ok};
ghost use Rattle.basics.specs.Lists.{all_below, filled};
ghost use Rattle.protocol.specs.Rules.{truck};
ghost use Rattle.protocol.specs.Fleets.{chosen, good_truck_in, good_fleet_in, step_check_in, next_fleet_in};
ghost use Rattle.recordbytes.specs.Layout.{size_for, record_byte, damaged, record_of};
ghost use Rattle.fleet.specs.Rounds.{turned_fleet};
ghost use Rattle.fleet.specs.Bytes.{bytes_check_in};

use crate::round::{Round, phase_of, senders_of};
use crate::trucks::{SoundBytes, Trucks};
use protocol::Cycle;
use refusals::Refusal;

// Refusal 7 lets every truck pass, with so many rounds done. Every truck is looked at, so that there is no branch for each. The same loop
// over a fleet record is private to `fleetrecord`: one function for both would be public, over a public trait whose `truck` asks that the place is there.
fn good_places<R: Trucks>(cycle: Cycle, trucks: &R, done: u16) -> bool
    requires { (R.fleet trucks.now).n ≤ 32 }
    ensures { result ≡ all_below (λ i. good_truck_in (chosen cycle) done (truck (R.fleet trucks.now).trucks i)) (R.fleet trucks.now).n }
{
    let mut ok = true;
    for i in 0..trucks.count() {
        ok &= fleetrecord::good_truck(cycle, done, trucks.truck(i));
    }
    ok
}

// Refusal 7 lets the record pass: `good_fleet` without the test of n, which `damaged` has made.
fn good_record(cycle: Cycle, sound: &SoundBytes) -> bool
    ensures { result ≡ good_fleet_in (chosen cycle) (record_of sound.now.bytes.now) }
{
    let done = sound.done();
    if 400 < done {
        return false;
    }
    good_places(cycle, sound, done)
}

// What a step of the bytes answers: first whether they are a record, then as `check_step` has it.
#[tactic(auto, using(recordbytes::proofs::Places::bytes_whole))]
pub(crate) fn check(cycle: Cycle, d: &[u8], words: &[u32]) -> Result<(), Refusal>
    ensures { result ≡ bytes_check_in (chosen cycle) d.now words.now }
{
    if recordbytes::damaged(d) {
        return Err(Refusal::Record);
    }
    let sound = SoundBytes { bytes: d };
    if !good_record(cycle, &sound) {
        return Err(Refusal::Record);
    }
    let done = sound.done();
    if done == 400 {
        return Err(Refusal::RoundsDone);
    }
    plain::check_round(d[0], done + 1, words)
}

// Brings the head and each truck's place up to date, after which so many rounds are done. A fleet record's trucks have a loop of their own, in `update_first`: what
// a written place leaves of the others is said of a fleet and of bytes in different words, so a trait of writable places would be longer than the two.
#[tactic(auto, using(recordbytes::proofs::Places::bytes_whole))]
fn turn_places(round: &Round, d: &mut [u8], done: u16)
    requires { (damaged d.old ≡ false) × (length round.now.words.now ≡ 3 + (record_of d.old).n) }
    ensures { d.new
        ≡ filled (record_byte (turned_fleet round.now.phase round.now.words.now round.now.senders round.now.values.now done (record_of d.old)))
        (size_for (record_of d.old).n) d.old }
{
    // The head is put whole, as `recordbytes` puts it; a function for its three bytes would ask for the room here too.
    let n = d[0];
    d[0] = n;
    d[1] = (done % 256) as u8;
    d[2] = (done / 256) as u8;
    for i in 0..fleetrecord::places(n) {
        let t = recordbytes::truck_in(d, i);
        let event = round.event_by(t.estimate, i);
        let next = truck::updated(t, done, event);
        recordbytes::put_in(d, i, next);
    }
}

// The bytes after an accepted step. As `next_fleet`, but each place is put where it was read. (Bytes that are written are no `SoundBytes`, which only lends them.)
#[tactic(auto, using(crate::proofs::Steps::step_good))]
pub(crate) fn next_bytes(cycle: Cycle, d: &mut [u8], words: &[u32])
    requires { (damaged d.old ≡ false) × (step_check_in (chosen cycle) (record_of d.old) words.now ≡ Ok tt) }
    ensures { d.new
        ≡ filled (record_byte (next_fleet_in (chosen cycle) (record_of d.old) words.now))
        (size_for (record_of d.old).n) d.old }
{
    let sound = SoundBytes { bytes: d };
    let done = sound.done();
    let phase = phase_of(cycle, done);
    let mut values = [0u32; 16];
    // nothing asks for these, since a truck in bytes is read again where it is put
    let mut held = [0u8; 32];
    let senders = senders_of(phase, words, &sound, &mut values, &mut held);
    let round = Round {
        phase,
        words,
        senders,
        values: &values,
    };
    turn_places(&round, d, done + 1);
}
