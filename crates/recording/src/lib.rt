// A packed recording: the counts of its header, its openings, and the check 1 to 6 that reading, running and grading share.
#![tactic(auto)]

ghost use Rattle.std.specs.Prelude.{◌≡◌, ◌&&◌, ℕ, ◌+◌, ◌*◌, ◌-◌, ◌%◌, ◌<◌, ◌≤◌, ◌^◌, eqb, length, get_or};
ghost use Rattle.basics.specs.Lists.{some_below};
ghost use Rattle.recording.specs.Packed.{bit_at, counts_of, opening_place, openings_into, word_place, round_place, word_in, bits_for, bytes_for};
ghost use Rattle.recording.specs.Checks.{bad_trucks, own_in, own_truck, own_round, Found, own_loss_check, counted_check, check_of};

use bitreader::Reader;
use refusals::Refusal;

// The header: 6 bits of truck count, 10 bits of round count.
pub const HEADER_BITS: usize = 16;

// The header's truck count and round count.
#[derive(Clone, Copy)]
pub struct Counts {
    pub trucks: u8,
    pub rounds: u16,
}

// The counts alone, on plain parameters.
pub fn read_counts(s: &[u8]) -> Counts
    ensures { result ≡ counts_of s.now }
{
    Counts {
        trucks: bitreader::read_at(s, 0, 6) as u8,
        rounds: bitreader::read_at(s, 6, 10) as u16,
    }
}

// One reader from the first bit on: over the two counts, then from opening to opening. It puts each into its place, as long as places are lent.
pub fn read_front(s: &[u8], openings: &mut [u8]) -> Counts
    ensures { (result ≡ counts_of s.now) × (openings.new ≡ openings_into s.now openings.old) }
{
    let mut r = Reader::new(s, 0);
    let trucks = r.take(6) as u8;
    let rounds = r.take(10) as u16;
    let end = usize::from(trucks).min(openings.len());
    for opening in openings[..end].iter_mut() {
        *opening = r.take(4) as u8;
    }
    Counts { trucks, rounds }
}

// The place of opening i; after n openings, that of the first word.
fn opening_place(i: u8) -> usize
    ensures { result ≡ opening_place i }
{
    HEADER_BITS + 4 * usize::from(i)
}

// The place of word w of the rounds of so many trucks.
pub fn word_place(trucks: u8, w: u16) -> usize
    ensures { result ≡ word_place trucks w }
{
    opening_place(trucks) + usize::from(w) * usize::from(trucks)
}

// The bits of a recording of these counts.
pub fn bits_for(trucks: u8, rounds: u16) -> usize
    ensures { result ≡ bits_for trucks rounds }
{
    let n = usize::from(trucks);
    HEADER_BITS + 4 * n + usize::from(rounds) * (3 * n + n * n)
}

pub fn bytes_for(trucks: u8, rounds: u16) -> usize
    ensures { result ≡ bytes_for trucks rounds }
{
    bits_for(trucks, rounds).div_ceil(8)
}

// Refusal 2.
pub fn bad_trucks(n: u8) -> bool
    ensures { result ≡ bad_trucks n }
{
    (n == 0) | (32 < n)
}

// Refusal 5: whether a bit after the first `total` is 1.
fn end_bit(s: &[u8], total: usize) -> bool
    requires { (length s.now < 2 ^ 32) × ((total ≤ 8 * length s.now) × (8 * length s.now ≤ total + 7)) }
    ensures { result ≡ some_below (λ j. eqb (bit_at s.now (total + j)) 1) (8 * length s.now - total) }
{
    bitreader::read_at(s, total, 8 * s.len() - total) != 0
}

// The mask of a round's own loss bits, of which the first stands at bit `at` of the mask.
fn own_mask(at: usize, n: usize) -> [u8; 136]
    requires { (at < 8) × (n ≤ 32) }
    ensures { (q : ℕ) → eqb (bit_at result q) 1 ≡ some_below (λ i. eqb q (at + i * (n + 1))) n }
{
    let mut mask = [0; 136];
    for i in 0..n {
        let p = at + i * (n + 1);
        mask[p / 8] |= 128u8 >> (p % 8);
    }
    mask
}

// Whether a bit of the bytes is 1 in the mask too. By a union, so that the compiler takes sixteen bytes at once: an `any` would branch at each.
// By the index: a `zip` of the bytes and the mask compiles to slower code, which counts by both lengths.
fn any_masked(bytes: &[u8], mask: &[u8; 136]) -> bool
    requires { length bytes.now ≤ 136 }
    ensures { result ≡ some_below (λ q. eqb (bit_at bytes.now q) 1 && eqb (bit_at mask.now q) 1) (8 * length bytes.now) }
{
    let mut any = 0;
    for j in 0..bytes.len() {
        any |= bytes[j] & mask[j];
    }
    any != 0
}

// The own loss bits of a recording: its bytes, its trucks, and its rounds, all of which the bytes hold. Rounds are counted from 0 here.
#[derive(Clone, Copy)]
struct OwnBits<'a> {
    bytes: &'a [u8],
    trucks: u8,
    rounds: u16,
    ghost each_fits: { (q : ℕ) → get_or bytes.now q 0 < 256 },
    ghost few_trucks: { trucks ≤ 32 },
    ghost few_rounds: { rounds ≤ 400 },
    ghost all_there: { bits_for trucks rounds ≤ 8 * length bytes.now },
}

impl OwnBits<'_> {
    // The bits of a round.
    fn round_bits(&self) -> usize
        ensures { result ≡ 3 * self.now.trucks + self.now.trucks * self.now.trucks }
    {
        let n = usize::from(self.trucks);
        3 * n + n * n
    }

    // The place of the first own bit of round r. Each other one of the round stands n + 1 bits after the one before it.
    fn place(&self, r: u16) -> usize
        requires { r ≤ self.now.rounds }
        ensures { result ≡ round_place self.now.trucks r + 3 * self.now.trucks }
    {
        word_place(self.trucks, 3) + usize::from(r) * self.round_bits()
    }

    // Whether an own loss bit of round r is 1. By the union of their bytes, each shifted so that its own bit is worth 128: with no branch for each truck this
    // is faster than a search.
    fn own_any(&self, r: u16) -> bool
        requires { r < self.now.rounds }
        ensures { result ≡ own_in (word_in (bit_at self.now.bytes.now) self.now.trucks) self.now.trucks r }
    {
        let n = usize::from(self.trucks);
        let mut p = self.place(r);
        let mut any = 0;
        // the place moves on by itself: computed from the truck it costs the loop an instruction
        for _truck in 0..n {
            any |= u32::from(self.bytes[p / 8]) << (p % 8);
            p += n + 1;
        }
        any / 128 % 2 == 1
    }

    // The lowest truck whose own loss bit is 1 in round r.
    fn own_truck(&self, r: u16) -> Option<u8>
        requires { r < self.now.rounds }
        ensures { Found result (own_truck (word_in (bit_at self.now.bytes.now) self.now.trucks) self.now.trucks r) self.now.trucks }
    {
        let at = self.place(r);
        for truck in 0..self.trucks {
            let p = at + usize::from(truck) * (usize::from(self.trucks) + 1);
            if bitreader::read_at(self.bytes, p, 1) == 1 {
                return Some(truck);
            }
        }
        None
    }

    // The earliest round in which an own loss bit is 1.
    fn own_round(&self) -> Option<u16>
        ensures { Found result (own_round (word_in (bit_at self.now.bytes.now) self.now.trucks) self.now.trucks self.now.rounds) self.now.rounds }
    {
        for r in 0..self.rounds {
            if self.own_any(r) {
                return Some(r);
            }
        }
        None
    }

    // The same, in a second way for speed, where the bits of a round fill whole bytes: then the own bits of each round stand at the same bits of its bytes, and one
    // mask serves all rounds.
    fn own_round_masked(&self) -> Option<u16>
        requires { (3 * self.now.trucks + self.now.trucks * self.now.trucks) % 8 ≡ 0 }
        ensures { Found result (own_round (word_in (bit_at self.now.bytes.now) self.now.trucks) self.now.trucks self.now.rounds) self.now.rounds }
    {
        let n = usize::from(self.trucks);
        let at = self.place(0);
        let mask = own_mask(at % 8, n);
        let size = self.round_bits() / 8;
        let m = (at % 8 + n * n).div_ceil(8);
        for round in 0..self.rounds {
            let b = at / 8 + usize::from(round) * size;
            if any_masked(&self.bytes[b..b + m], &mask) {
                return Some(round);
            }
        }
        None
    }
}

// Refusal 6, of so many rounds from the first one on. Only in the round that it names is the truck searched for. With 16, 21, 24, 29 and 32 trucks the bits of a
// round fill whole bytes, 38 or more, and rounds are passed by a mask, which is not worth making for one round.
fn check_own(s: &[u8], trucks: u8, rounds: u16) -> Result<(), Refusal>
    requires { (trucks ≤ 32) × (rounds ≤ 400) × (bits_for trucks rounds ≤ 8 * length s.now) }
    ensures { result ≡ own_loss_check (word_in (bit_at s.now) trucks) trucks 1 rounds }
{
    let own = OwnBits {
        bytes: s,
        trucks,
        rounds,
    };
    let found = if (16 <= trucks) & (1 < rounds) & (own.round_bits() % 8 == 0) {
        own.own_round_masked()
    } else {
        own.own_round()
    };
    let Some(r) = found else {
        return Ok(());
    };
    Err(Refusal::OwnLoss {
        round: r + 1,
        truck: own.own_truck(r).unwrap(),
    })
}

// Refusals 2 to 6, by counts that are given, as two numbers, which `counted_check` takes: the header is not read.
fn check_counted(s: &[u8], n: u8, rounds: u16) -> Result<(), Refusal>
    ensures { result ≡ counted_check (bit_at s.now) (length s.now) n rounds }
{
    if bad_trucks(n) {
        return Err(Refusal::TruckCount);
    }
    if 400 < rounds {
        return Err(Refusal::RoundCount);
    }
    if s.len() != bytes_for(n, rounds) {
        return Err(Refusal::RecordingLength);
    }
    if end_bit(s, bits_for(n, rounds)) {
        return Err(Refusal::EndBit);
    }
    check_own(s, n, rounds)
}

// Refusals 1 to 6.
pub fn check(s: &[u8]) -> Result<(), Refusal>
    ensures { result ≡ check_of s.now }
{
    if s.len() < 2 {
        return Err(Refusal::ShortRecording);
    }
    let c = read_counts(s);
    check_counted(s, c.trucks, c.rounds)
}
