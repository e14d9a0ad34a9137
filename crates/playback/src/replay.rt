// A recording run from its bytes by sets in packed order, truck j at the bit worth 2 to the 31 - j: proposal rounds and veto rounds hand on
// to each other, each with one round fewer left. The rounds of the six-round cycle are in six.rt.
ghost use Rattle.std.specs.Prelude.{◌≡◌, false, true, cond, ◌+◌, ◌-◌, ◌<◌, ◌≤◌, ◌^◌, ℕ, eqb, length, get_or, replicate, Ok};
ghost use Rattle.basics.specs.Bits.{odd};
ghost use Rattle.basics.specs.Lists.{filled};
ghost use Rattle.recording.specs.Packed.{rounds_of, round_at};
ghost use Rattle.recording.specs.Checks.{frame_check};
ghost use Rattle.protocol.specs.declared.Heard.TheVariants.{Nothing};
ghost use Rattle.recordbytes.specs.Layout.{size_for, record_byte};
ghost use Rattle.protocol.specs.Rules.{two_rules};
ghost use Rattle.protocol.specs.Fleets.{chosen};
ghost use Rattle.counters.specs.Counters.{in_use};
ghost use Rattle.playback.specs.Sets.{Sorted};
ghost use Rattle.playback.specs.Replays.{fleet_after, grades_after, FoundAfter};
ghost use Rattle.playback.specs.Standing.{zeros, word_from, state_of, memory_of, sent_by, truck_of, built_by, fleet_by, unread_of, Proposes, Vetoes, noted, Due, Halted, all_of, Opens};

use crate::grading::{grades_of, judged};
use crate::hearing::first_heard;
use crate::listening::{hear, hearing_some, settle};
use crate::six::six_rounds;
use protocol::{Cycle, Fleet, Grades, Heard, Sent, State, Truck};
use recording::Counts;

// A recording whose frame is good. The rounds below take its bytes alone: a reference to a struct of a reference is one step more for each row.
#[derive(Clone, Copy)]
pub(crate) struct Frame<'a> {
    pub(crate) bytes: &'a [u8],
    ghost good: { frame_check bytes.now ≡ Ok tt },
}

// Those that go on after a proposal round's stops, its senders and marks, and who heard one value and who several.
#[derive(Clone, Copy)]
pub struct Proposed {
    pub going: u32,
    pub senders: u32,
    pub mark: u32,
    pub one: u32,
    pub several: u32,
}

// Those that go on after a veto round's stops, its senders and marks, those that run on after it, and those that decided in it.
#[derive(Clone, Copy)]
pub struct Vetoed {
    pub going: u32,
    pub senders: u32,
    pub mark: u32,
    pub on: u32,
    pub done: u32,
}

// How the trucks stand after some rounds.
#[derive(Clone, Copy)]
pub struct Sets {
    pub running: u32,
    pub decided: u32,
    pub marked: u32,
    pub one: u32,
    pub several: u32,
    pub unwilling: u32,
    pub done: u16,
}

// What a run notes beside the sets: the trucks' openings, the trucks of each crusher, the round in which each truck ended, the digits of what was sent, and the
// grades so far. A run makes one and lends it on, so that nothing of it is copied. (An array for each thing and not one of trucks: a round goes by sets, and writes few
// of them.)
#[derive(Clone, Copy)]
pub struct Tally {
    pub openings: [u8; 32],
    pub by: [u32; 16],
    pub ends: [u16; 32],
    pub sent: [u64; 8],
    pub found: [u16; 4],
}

impl Tally {
    // Before round 1, with no opening read yet.
    fn new() -> Tally
        ensures { result ≡ zeros }
    {
        Tally {
            openings: [0; 32],
            by: [0; 16],
            ends: [0; 32],
            sent: [0; 8],
            found: [0; 4],
        }
    }
}

// Those of a set came to their end in round k.
pub(crate) fn ended(ends: &mut [u16; 32], who: u32, k: u16)
    ensures { ends.new ≡ filled (noted ends.old who k) 32 ends.old }
{
    for p in sets::members_of(who) {
        ends[31 - p] = k;
    }
}

// What trucks with a mark heard is asked for after the last round only.
fn unread(left: u16, mark: u32) -> u32
    ensures { result ≡ unread_of left mark }
{
    if left == 1 { 0 } else { mark }
}

// Nobody listens where nobody sends.
pub(crate) fn listeners(senders: u32, wanted: u32) -> u32
    ensures { result ≡ cond (eqb senders 0) 0 wanted }
{
    if senders == 0 { 0 } else { wanted }
}

// The proposal round at a place.
fn propose(s: &[u8], at: usize, n: usize, left: u16, running: u32, by: &mut [u32; 16]) -> Proposed
    requires { (n ≤ 32) × (at < 2 ^ 31) }
    ensures { Proposes s.now at n left running (word_from s.now (at + n)) by.old by.new result }
{
    let stop = bitreader::read_at(s, at, 32);
    let active = bitreader::read_at(s, at + n, 32);
    let mark = bitreader::read_at(s, at + 2 * n, 32);
    let going = sets::without(running, stop);
    let senders = going & active;
    let wanted = listeners(senders, sets::without(going, unread(left, mark)));
    let h = hear::<true>(s, at + 3 * n, n, senders, wanted, by);
    settle(by, &h.taking, sets::without(h.some, mark));
    Proposed {
        going,
        senders,
        mark,
        one: h.one,
        several: h.some ^ h.one,
    }
}

// The veto round at a place.
fn veto(s: &[u8], at: usize, n: usize, running: u32, marked: u32, one: u32, several: u32) -> Vetoed
    requires { (n ≤ 32) × (at < 2 ^ 31) }
    ensures { Vetoes s.now at n running marked one several result }
{
    let stop = bitreader::read_at(s, at, 32);
    let mark = bitreader::read_at(s, at + 2 * n, 32);
    let going = sets::without(running, stop);
    let senders = going & (marked | several);
    let may = sets::without(going & one, mark | marked);
    // Nobody hears where nobody sends, and no row is read there.
    let some = if (senders == 0) | (may == 0) {
        0
    } else {
        hearing_some(s, at + 3 * n, n, senders, may)
    };
    let done = may ^ some;
    Vetoed {
        going,
        senders,
        mark,
        on: going ^ done,
        done,
    }
}

// A proposal round and those after it. Here and in `vetoes` judging stands last, right before the next round: it is a call only where grades are asked for, and
// at that place fewer values have to be kept over it. The sets go from round to round one by one and not as a struct, so that they stay in registers. `judging` is a
// flag and no const parameter: that would be a second pair of these functions in the archive.
#[cycle(proposals_vetoes)]
fn proposals(
    s: &[u8],
    at: usize,
    n: usize,
    left: u16,
    k: u16,
    t: &mut Tally,
    running: u32,
    decided: u32,
    until: u32,
    judging: bool,
) -> Sets
    requires { Due two_rules (round_at s.now) s.now at n left k t.old.by t.old.ends t.old.sent running decided 0 0 0 0 until
        × ((odd k ≡ false) × FoundAfter two_rules (round_at s.now) s.now judging k t.old.found) }
    ensures { Halted two_rules (round_at s.now) s.now (k + left) t.new.by t.new.ends t.new.sent until result
        × (FoundAfter two_rules (round_at s.now) s.now judging result.done t.new.found × (t.new.openings ≡ t.old.openings)) }
{
    if (left == 0) | (running == 0) | (decided & until != 0) {
        return Sets {
            running,
            decided,
            marked: 0,
            one: 0,
            several: 0,
            unwilling: 0,
            done: k,
        };
    }
    let q = propose(s, at, n, left, running, &mut t.by);
    ended(&mut t.ends, sets::without(running, q.going), k + 1);
    counters::count_up(&mut t.sent, q.senders as u64);
    judged::<false>(
        judging,
        &mut t.found,
        s,
        at + 3 * n,
        n,
        k + 1,
        q.going,
        q.senders,
        q.mark,
    );
    vetoes(
        s,
        at + (3 + n) * n,
        n,
        left - 1,
        k + 1,
        t,
        q.going,
        decided,
        q.mark,
        q.one,
        q.several,
        until,
        judging,
    )
}

// A veto round and those after it.
#[cycle(proposals_vetoes)]
fn vetoes(
    s: &[u8],
    at: usize,
    n: usize,
    left: u16,
    k: u16,
    t: &mut Tally,
    running: u32,
    decided: u32,
    marked: u32,
    one: u32,
    several: u32,
    until: u32,
    judging: bool,
) -> Sets
    requires { Due two_rules (round_at s.now) s.now at n left k t.old.by t.old.ends t.old.sent running decided marked one several 0 until
        × ((odd k ≡ true) × FoundAfter two_rules (round_at s.now) s.now judging k t.old.found) }
    ensures { Halted two_rules (round_at s.now) s.now (k + left) t.new.by t.new.ends t.new.sent until result
        × (FoundAfter two_rules (round_at s.now) s.now judging result.done t.new.found × (t.new.openings ≡ t.old.openings)) }
{
    if (left == 0) | (running == 0) | (decided & until != 0) {
        return Sets {
            running,
            decided,
            marked,
            one,
            several,
            unwilling: 0,
            done: k,
        };
    }
    let q = veto(s, at, n, running, marked, one, several);
    ended(&mut t.ends, sets::without(running, q.on), k + 1);
    counters::count_up(&mut t.sent, (q.senders as u64) << 32);
    judged::<true>(
        judging,
        &mut t.found,
        s,
        at + 3 * n,
        n,
        k + 1,
        q.going,
        q.senders,
        q.mark,
    );
    proposals(
        s,
        at + (3 + n) * n,
        n,
        left - 1,
        k + 1,
        t,
        q.on,
        decided | q.done,
        until,
        judging,
    )
}

fn state_of(running: bool, decided: bool, end: u16) -> State
    ensures { result ≡ state_of running decided end }
{
    match (running, decided) {
        (true, _) => State::Running,
        (false, true) => State::Decided(end),
        (false, false) => State::Stopped(end),
    }
}

fn heard_of(running: bool, one: bool, several: bool) -> Heard
    ensures { result ≡ cond running (memory_of one several) Nothing }
{
    match (running, one, several) {
        (true, true, _) => Heard::One,
        (true, false, true) => Heard::Several,
        _ => Heard::Nothing,
    }
}

// How many proposals and vetoes the truck at place p sent, by the first m words of the counts. Proposals are counted at its place and vetoes 32 places further,
// so one shift brings the digits of both down, to the bits worth 1 and 2 to the 32.
fn sent_at(words: &[u64; 8], m: usize, p: usize) -> Sent
    requires { (m ≤ 8) × (p < 32) }
    ensures { result ≡ sent_by words.now m p }
{
    let used = &words[..m];
    let mut both = 0u64;
    for (i, word) in used.iter().enumerate() {
        both += ((word >> p) & 4294967297) << i;
    }
    Sent {
        proposals: (both % 4294967296) as u8,
        vetoes: (both / 4294967296) as u8,
    }
}

// The truck at place p, with its estimate.
fn truck_of(b: Sets, e: usize, opening: u8, end: u16, sent: Sent, p: usize) -> Truck
    requires { (p < 32) × (e ≤ 16) }
    ensures { result ≡ truck_of b e opening end sent p }
{
    let running = sets::holds(b.running, p);
    let heard = heard_of(running, sets::holds(b.one, p), sets::holds(b.several, p));
    let state = state_of(running, sets::holds(b.decided, p), end);
    Truck {
        opening,
        estimate: e as u8,
        mark: running & sets::holds(b.marked, p),
        heard,
        unwilling: running & sets::holds(b.unwilling, p),
        state,
        sent,
    }
}

// Truck i, where m words of the counts are in use. As a call, for its two callers, it makes a run of 32 trucks and 20 rounds a tenth longer.
#[inline(always)]
fn truck_at(b: Sets, t: &Tally, m: usize, i: usize) -> Truck
    requires { (m ≡ in_use t.now.sent 8) × (i < 32) }
    ensures { result ≡ built_by t.now.openings b t.now.by t.now.ends t.now.sent i }
{
    let p = 31 - i;
    truck_of(
        b,
        first_heard(&t.by, sets::only(p), 0),
        t.openings[i],
        t.ends[i],
        sent_at(&t.sent, m, p),
        p,
    )
}

// The record of a run that has come to its end, with all rounds done.
fn fleet_of(counts: Counts, b: Sets, t: &Tally) -> Fleet
    requires { counts.trucks ≤ 32 }
    ensures { result ≡ fleet_by counts t.now.openings b t.now.by t.now.ends t.now.sent }
{
    let none = fleetrecord::blank();
    let mut trucks = none.trucks;
    let m = counters::in_use(&t.sent);
    for i in 0..fleetrecord::places(counts.trucks) {
        trucks[i] = truck_at(b, t, m, i);
    }
    Fleet {
        n: counts.trucks,
        done: counts.rounds,
        trucks,
    }
}

// The same record put into bytes, all 32 places.
fn put_fleet(counts: Counts, b: Sets, t: &Tally, d: &mut [u8])
    requires { (counts.trucks ≤ 32) × (size_for 32 ≤ length d.old) }
    ensures { d.new
        ≡ filled (record_byte (fleet_by counts t.now.openings b t.now.by t.now.ends t.now.sent)) (size_for 32) d.old }
{
    d[0] = counts.trucks;
    d[1] = (counts.rounds % 256) as u8;
    d[2] = (counts.rounds / 256) as u8;
    let n = fleetrecord::places(counts.trucks);
    let m = counters::in_use(&t.sent);
    for i in 0..n {
        let truck = truck_at(b, t, m, i);
        recordbytes::put_in(d, i, truck);
    }
    for i in n..32 {
        let truck = fleetrecord::opened(0);
        recordbytes::put_in(d, i, truck);
    }
}

// The trucks of each opening.
fn openers(openings: &[u8; 32], all: u32, by: &mut [u32; 16])
    requires { ((i : ℕ) → get_or openings.now i 0 < 16) × (by.old ≡ replicate 16 0) }
    ensures { Sorted by.new 32 all (λ p. get_or openings.now (31 - p) 0) }
{
    for p in sets::members_of(all) {
        let c = openings[31 - p] as usize;
        by[c] |= sets::only(p);
    }
}

// The first n trucks.
fn everyone(n: usize) -> u32
    requires { n ≤ 32 }
    ensures { result ≡ all_of n }
{
    (((1u64 << n) - 1) << (32 - n)) as u32
}

// The rounds of a cycle, from the first on.
fn rounds_in(
    cycle: Cycle,
    s: &[u8],
    at: usize,
    n: usize,
    rounds: u16,
    t: &mut Tally,
    all: u32,
    judging: bool,
) -> Sets
    requires { Due (chosen cycle).rules (round_at s.now) s.now at n rounds 0 t.old.by t.old.ends t.old.sent all 0 0 0 0 0 0
        × ((t.old.sent ≡ replicate 8 0) × (t.old.found ≡ replicate 4 0)) }
    ensures { Halted (chosen cycle).rules (round_at s.now) s.now rounds t.new.by t.new.ends t.new.sent 0 result
        × (FoundAfter (chosen cycle).rules (round_at s.now) s.now judging result.done t.new.found × (t.new.openings ≡ t.old.openings)) }
{
    match cycle {
        Cycle::TwoRound => proposals(s, at, n, rounds, 0, t, all, 0, 0, judging),
        Cycle::SixRound => six_rounds(s, at, n, rounds, t, all, judging),
    }
}

// A recording before round 1, by its header's counts and the set of all trucks: its openings are read, and the trucks of each opening put together.
fn begin(frame: &Frame, openings: &mut [u8; 32], by: &mut [u32; 16]) -> (Counts, u32)
    requires { (openings.old ≡ replicate 32 0) × (by.old ≡ replicate 16 0) }
    ensures { Opens frame.now.bytes.now openings.new by.new result.0 result.1 }
{
    let counts = recording::read_front(frame.bytes, openings);
    let all = everyone(counts.trucks as usize);
    openers(openings, all, by);
    (counts, all)
}

// All rounds of a recording.
fn play(cycle: Cycle, frame: &Frame, t: &mut Tally, judging: bool) -> (Counts, Sets)
    requires { t.old ≡ zeros }
    ensures few { result.0.trucks ≤ 32 }
    ensures fleet { fleet_by result.0 t.new.openings result.1 t.new.by t.new.ends t.new.sent
        ≡ fleet_after (chosen cycle) (round_at frame.now.bytes.now) frame.now.bytes.now (rounds_of frame.now.bytes.now) }
    ensures grades { FoundAfter (chosen cycle).rules (round_at frame.now.bytes.now) frame.now.bytes.now judging (rounds_of frame.now.bytes.now) t.new.found }
{
    let (counts, all) = begin(frame, &mut t.openings, &mut t.by);
    let sets = rounds_in(
        cycle,
        frame.bytes,
        recording::word_place(counts.trucks, 0),
        counts.trucks as usize,
        counts.rounds,
        t,
        all,
        judging,
    );
    (counts, sets)
}

// The record after all rounds.
pub(crate) fn ran(cycle: Cycle, frame: &Frame) -> Fleet
    ensures { result ≡ fleet_after (chosen cycle) (round_at frame.now.bytes.now) frame.now.bytes.now (rounds_of frame.now.bytes.now) }
{
    let mut t = Tally::new();
    let (counts, sets) = play(cycle, frame, &mut t, false);
    fleet_of(counts, sets, &t)
}

// The same, put into bytes that have room for it: no record is built, which is much of what a run of few trucks and rounds takes.
pub(crate) fn run_into(cycle: Cycle, frame: &Frame, d: &mut [u8])
    requires { size_for 32 ≤ length d.old }
    ensures { d.new
        ≡ filled (record_byte (fleet_after (chosen cycle) (round_at frame.now.bytes.now) frame.now.bytes.now (rounds_of frame.now.bytes.now)))
        (size_for 32) d.old }
{
    let mut t = Tally::new();
    let (counts, sets) = play(cycle, frame, &mut t, false);
    put_fleet(counts, sets, &t, d);
}

// The grades of all rounds.
pub(crate) fn graded(cycle: Cycle, frame: &Frame) -> Grades
    ensures { result ≡ grades_after (chosen cycle).rules (round_at frame.now.bytes.now) frame.now.bytes.now true (rounds_of frame.now.bytes.now) }
{
    let mut t = Tally::new();
    play(cycle, frame, &mut t, true);
    grades_of(&t.found)
}
