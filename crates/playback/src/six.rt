// The rounds of the six-round cycle by sets in packed order, truck j at the bit worth 2 to the 31 - j. The senders of a bit round are the trucks of the crushers
// that have its bit.
ghost use Rattle.std.specs.Prelude.{◌≡◌, ℕ, ◌<◌, ◌≤◌, ◌^◌};
ghost use Rattle.basics.specs.Bits.{bit};
ghost use Rattle.protocol.specs.Six.{six_rules};
ghost use Rattle.recording.specs.Packed.{round_at};
ghost use Rattle.playback.specs.Replays.{FoundAfter};
ghost use Rattle.playback.specs.Standing.{with_bit, Prepares, Listens, Accepts, SixPlays, Due, Halted};

use crate::grading::judged;
use crate::listening::{hear, hearing_some, settle};
use crate::replay::{Sets, Tally, ended, listeners};

// Those that go on after a round's stops, its senders and marks, those that run on after it, those that decided in it, and those that are unwilling then.
#[derive(Clone, Copy)]
pub struct Played {
    pub going: u32,
    pub senders: u32,
    pub mark: u32,
    pub on: u32,
    pub done: u32,
    pub unwilling: u32,
}

// The trucks of the crushers that have the bit worth 2 to the b.
fn with_bit(by: &[u32; 16], b: usize) -> u32
    requires { b < 4 }
    ensures { (p : ℕ) → p < 32 → bit result p ≡ with_bit by.now b p }
{
    let mut out = 0;
    for (c, trucks) in by.iter().enumerate() {
        out = sets::union_where(out, *trucks, (c >> b) % 2 == 1);
    }
    out
}

// Prepare at a place.
fn prepare(s: &[u8], at: usize, n: usize, running: u32, by: &mut [u32; 16]) -> Played
    requires { (n ≤ 32) × (at < 2 ^ 31) }
    ensures { Prepares s.now at n running by.old by.new result }
{
    let stop = bitreader::read_at(s, at, 32);
    let active = bitreader::read_at(s, at + n, 32);
    let mark = bitreader::read_at(s, at + 2 * n, 32);
    let going = sets::without(running, stop);
    let senders = going & active;
    let wanted = listeners(senders, sets::without(going, mark));
    let h = hear::<false>(s, at + 3 * n, n, senders, wanted, by);
    settle(by, &h.taking, h.some);
    Played {
        going,
        senders,
        mark,
        on: going,
        done: 0,
        unwilling: 0,
    }
}

// The round at a place for the bit worth 2 to the b. A row is read only of a truck that listens, has no mark and is willing so far.
fn bit_round(
    s: &[u8],
    at: usize,
    n: usize,
    b: usize,
    running: u32,
    unwilling: u32,
    by: &[u32; 16],
) -> Played
    requires { (n ≤ 32) × ((at < 2 ^ 31) × (b < 4)) }
    ensures { Listens s.now at n b running unwilling by.now result }
{
    let stop = bitreader::read_at(s, at, 32);
    let mark = bitreader::read_at(s, at + 2 * n, 32);
    let going = sets::without(running, stop);
    let senders = going & with_bit(by, b);
    let quiet = sets::without(going, senders);
    let asked = listeners(senders, sets::without(quiet, mark | unwilling));
    let some = hearing_some(s, at + 3 * n, n, senders, asked);
    Played {
        going,
        senders,
        mark,
        on: going,
        done: 0,
        unwilling: (going & unwilling) | (quiet & mark) | some,
    }
}

// Accept at a place.
fn accept(s: &[u8], at: usize, n: usize, running: u32, unwilling: u32) -> Played
    requires { (n ≤ 32) × (at < 2 ^ 31) }
    ensures { Accepts s.now at n running unwilling result }
{
    let stop = bitreader::read_at(s, at, 32);
    let mark = bitreader::read_at(s, at + 2 * n, 32);
    let going = sets::without(running, stop);
    let senders = going & unwilling;
    let may = sets::without(going, mark | unwilling);
    let some = hearing_some(s, at + 3 * n, n, senders, may);
    let done = may ^ some;
    Played {
        going,
        senders,
        mark,
        on: going ^ done,
        done,
        unwilling: 0,
    }
}

// The next round at a place, with d rounds of the cycle done.
fn six_round(
    s: &[u8],
    at: usize,
    n: usize,
    d: u16,
    running: u32,
    unwilling: u32,
    by: &mut [u32; 16],
) -> Played
    requires { (n ≤ 32) × ((at < 2 ^ 31) × (d < 6)) }
    ensures { SixPlays s.now at n d running unwilling by.old by.new result }
{
    match d {
        0 => prepare(s, at, n, running, by),
        5 => accept(s, at, n, running, unwilling),
        _ => bit_round(s, at, n, (4 - d) as usize, running, unwilling, by),
    }
}

// All rounds from the first on, until nobody runs. A `while`, since the number of rounds done by then is part of the answer.
pub(crate) fn six_rounds(
    s: &[u8],
    first: usize,
    n: usize,
    rounds: u16,
    t: &mut Tally,
    all: u32,
    judging: bool,
) -> Sets
    requires { Due six_rules (round_at s.now) s.now first n rounds 0 t.old.by t.old.ends t.old.sent all 0 0 0 0 0 0
        × FoundAfter six_rules (round_at s.now) s.now judging 0 t.old.found }
    ensures { Halted six_rules (round_at s.now) s.now rounds t.new.by t.new.ends t.new.sent 0 result
        × (FoundAfter six_rules (round_at s.now) s.now judging result.done t.new.found × (t.new.openings ≡ t.old.openings)) }
{
    let mut at = first;
    let mut k = 0u16;
    let mut running = all;
    let mut decided = 0;
    let mut unwilling = 0;
    while (k < rounds) & (running != 0) {
        let q = six_round(s, at, n, k % 6, running, unwilling, &mut t.by);
        judged::<false>(
            judging,
            &mut t.found,
            s,
            at + 3 * n,
            n,
            k + 1,
            q.going,
            q.senders,
            q.mark,
        );
        ended(&mut t.ends, sets::without(running, q.on), k + 1);
        running = q.on;
        decided = decided | q.done;
        unwilling = q.unwilling;
        at = at + (3 + n) * n;
        k += 1;
    }
    Sets {
        running,
        decided,
        marked: 0,
        one: 0,
        several: 0,
        unwilling,
        done: k,
    }
}
