// What the marks of a round are worth, by sets in packed order, and the first round that breaks each class.
ghost use Rattle.std.specs.Prelude.{◌≡◌, true, cond, ◌&&◌, ◌<◌, ◌≤◌, ◌^◌, ◌*◌, eqb, leb};
ghost use Rattle.std.specs.Int.Bits.{bit_or};
ghost use Rattle.std.specs.Int.Count.{ones};
ghost use Rattle.basics.specs.Bits.{bit};
ghost use Rattle.sets.specs.Sets.{Members};
ghost use Rattle.playback.specs.Grading.{heard_at, misses_some, misses_all, misses_half, carried, grades_of, Judges};

use crate::listening::heard_of;
use crate::replay::listeners;
use protocol::Grades;

// Who missed a message, who of them heard none, and who of them no majority.
#[derive(Clone, Copy)]
pub struct Missed {
    pub some: u32,
    pub all: u32,
    pub half: u32,
}

// With one truck more, which heard those of `heard`: its own set joins where it missed some. Bits are counted only where it did.
fn with_truck(m: Missed, own: u32, heard: u32, senders: u32, sent: u32) -> Missed
    ensures { (result.some ≡ cond (misses_some senders heard) (bit_or m.some own) m.some)
        × ((result.all ≡ cond (misses_some senders heard && eqb heard 0) (bit_or m.all own) m.all)
        × (result.half ≡ cond (misses_some senders heard && leb (2 * ones heard) sent) (bit_or m.half own) m.half)) }
{
    if heard == senders {
        return m;
    }
    let some = m.some | own;
    if sent < 2 * u32::count_ones(heard) {
        return Missed { some, ..m };
    }
    Missed {
        some,
        all: sets::union_where(m.all, own, heard == 0),
        half: m.half | own,
    }
}

// What those wanted miss of the senders.
fn missing(s: &[u8], at: usize, n: usize, senders: u32, wanted: u32) -> Missed
    requires { (n ≤ 32) × (at < 2 ^ 32) }
    ensures { Members result.some 32 (λ p. bit wanted p && misses_some senders (heard_at s.now at n senders p))
        × (Members result.all 32 (λ p. bit wanted p && misses_all senders (heard_at s.now at n senders p))
        × Members result.half 32 (λ p. bit wanted p && misses_half senders (heard_at s.now at n senders p))) }
{
    let sent = u32::count_ones(senders);
    let mut m = Missed {
        some: 0,
        all: 0,
        half: 0,
    };
    for p in sets::members_of(wanted) {
        let heard = heard_of(s, at, n, senders, p);
        m = with_truck(m, sets::only(p), heard, senders, sent);
    }
    m
}

fn where_open(asked: bool, set: u32) -> u32
    ensures { result ≡ cond asked set 0 }
{
    if asked { set } else { 0 }
}

// The first round that breaks a class, or 0 as `carried` says it, where round k is the next one looked at.
#[tactic(auto, unfolding(crate::specs::Grading::carried))]
fn carry(first: u16, ok: bool, k: u16) -> u16
    ensures { result ≡ carried first ok k }
{
    if first != 0 {
        first
    } else if ok {
        0
    } else {
        k
    }
}

// The grades, by the four numbers in which a run keeps them: a list, as `grades_of` and `Judges` of specs/Grading speak of it.
pub(crate) fn grades_of(found: &[u16; 4]) -> Grades
    ensures { result ≡ grades_of found.now }
{
    Grades {
        complete: found[0],
        majority: found[1],
        zero: found[2],
        accurate: found[3],
    }
}

// The grades with round k too, of which the first row stands at a place.
fn judged_into(
    found: &mut [u16; 4],
    s: &[u8],
    at: usize,
    n: usize,
    k: u16,
    going: u32,
    senders: u32,
    mark: u32,
)
    requires { (n ≤ 32) × (at < 2 ^ 32) }
    ensures { Judges true s.now at n k going senders mark found.old found.new }
{
    let first = where_open(
        (found[0] == 0) | (found[1] == 0) | (found[2] == 0),
        sets::without(going, mark),
    );
    let last = where_open(found[3] == 0, going & mark);
    let m = missing(s, at, n, senders, listeners(senders, first | last));
    found[0] = carry(found[0], sets::without(m.some, mark) == 0, k);
    found[1] = carry(found[1], sets::without(m.half, mark) == 0, k);
    found[2] = carry(found[2], sets::without(m.all, mark) == 0, k);
    found[3] = carry(found[3], sets::without(going & mark, m.some) == 0, k);
}

// The grades with a round too, where they are asked for. Veto rounds have an instance of their own, so that `judged_into` has two callers and stays a call: built
// into one function for all rounds, it would make that a call in every round, asked for or not.
pub(crate) fn judged<const VETO: bool>(
    judging: bool,
    found: &mut [u16; 4],
    s: &[u8],
    at: usize,
    n: usize,
    k: u16,
    going: u32,
    senders: u32,
    mark: u32,
)
    requires { (n ≤ 32) × (at < 2 ^ 32) }
    ensures { Judges judging s.now at n k going senders mark found.old found.new }
{
    if judging {
        judged_into(found, s, at, n, k, going, senders, mark);
    }
}
