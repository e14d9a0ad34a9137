// Recordings in plain form: a byte for each opening and 3 + n words of 32 bits for each round.
#![tactic(auto)]

ghost use Rattle.std.specs.Prelude.{◌≡◌, true, false, List, ◌+◌, ◌*◌, ◌-◌, ◌<◌, ◌≤◌, ◌^◌, ◌/◌, ◌%◌, ℕ, MatchOption, map, length, get_or, Ok};
ghost use Rattle.basics.specs.Lists.{tab, first, some_below, filled};
ghost use Rattle.recording.specs.Packed.{trucks_of, opening_place, word_at, bytes_for, pack_bit};
ghost use Rattle.recording.specs.Checks.{high_bit, bad_openings, bad_words, own_loss_check, rounds_check, round_check, plain_check};
ghost use Rattle.plain.specs.Forms.{after_read, read_plain, after_write, write_plain};
ghost use Rattle.plain.specs.Steps.{own_in_rows, gathered_word, turned_word, over, byte_of, packed_byte, added, BitsPut};

use recording::Counts;
use refusals::Refusal;

// Refusal 7, of openings.
pub fn bad_openings(n: u8, openings: &[u8]) -> bool
    ensures { result ≡ bad_openings n openings.now }
{
    openings.len() != n as usize || openings.iter().any(|opening| 15 < *opening)
}

// Whether a word has a bit at or above n.
pub fn high_bit(n: u8, w: u32) -> bool
    ensures { result ≡ high_bit n w }
{
    n < 32 && 1 <= (w >> n)
}

// Refusal 8: the union of all words has a bit too high exactly where one of them has. A loop with no branch takes eight words at once.
fn bad_words(n: u8, rounds: u16, words: &[u32]) -> bool
    ensures { result ≡ bad_words n rounds words.now }
{
    if words.len() != rounds as usize * (3 + n as usize) {
        return true;
    }
    let all = words.iter().fold(0, |all, word| all | *word);
    high_bit(n, all)
}

// Whether an own loss bit is 1 in the rows of some trucks, the first of which is that of truck 0: a union too.
fn own_any(rows: &[u32]) -> bool
    requires { length rows.now ≤ 32 }
    ensures { result ≡ some_below (own_in_rows rows.now) (length rows.now) }
{
    let mut any: u32 = 0;
    for (i, row) in rows.iter().enumerate() {
        any |= *row & (1 << i);
    }
    1 <= any
}

// The lowest truck whose own loss bit is 1 in such rows. The union is asked first: it has no branch for each truck.
fn own_truck(rows: &[u32]) -> Option<usize>
    requires { length rows.now ≤ 32 }
    ensures { MatchOption result
        (some_below (own_in_rows rows.now) (length rows.now) ≡ false)
        (λ truck. (some_below (own_in_rows rows.now) (length rows.now) ≡ true) × (truck ≡ first (own_in_rows rows.now) (length rows.now))) }
{
    if !own_any(rows) {
        return None;
    }
    (0..rows.len()).find(|i| (rows[*i] >> *i) % 2 == 1)
}

// Refusal 6, of whole rounds, the first of which is round `k`. A word has a bit for each of the first 32 trucks.
fn check_own(n: u8, k: u16, words: &[u32]) -> Result<(), Refusal>
    requires { k + length words.now / (3 + n) ≤ 65536 }
    ensures { result ≡ own_loss_check (λ w. get_or words.now w 0) n k (length words.now / (3 + n)) }
{
    let m = n as usize;
    let held = m.min(32);
    for (r, round) in words.chunks_exact(3 + m).enumerate() {
        if let Some(truck) = own_truck(&round[3..3 + held]) {
            return Err(Refusal::OwnLoss {
                round: k + r as u16,
                truck: truck as u8,
            });
        }
    }
    Ok(())
}

// Refusals 8 and 6, of rounds one after the other, the first of which is round `k`.
fn check_rounds(n: u8, k: u16, rounds: u16, words: &[u32]) -> Result<(), Refusal>
    requires { k + rounds ≤ 65536 }
    ensures { result ≡ rounds_check n k rounds words.now }
{
    if bad_words(n, rounds, words) {
        return Err(Refusal::PlainRound);
    }
    check_own(n, k, words)
}

// Refusals 8 and 6, of round `k`.
pub fn check_round(trucks: u8, k: u16, words: &[u32]) -> Result<(), Refusal>
    ensures { result ≡ round_check trucks k words.now }
{
    check_rounds(trucks, k, 1, words)
}

// Refusals 2, 3, 7, 8 and 6.
pub fn check_plain(trucks: u8, rounds: u16, openings: &[u8], words: &[u32]) -> Result<(), Refusal>
    ensures { result ≡ plain_check trucks rounds openings.now words.now }
{
    if recording::bad_trucks(trucks) {
        return Err(Refusal::TruckCount);
    }
    if 400 < rounds {
        return Err(Refusal::RoundCount);
    }
    if bad_openings(trucks, openings) {
        return Err(Refusal::Record);
    }
    check_rounds(trucks, 1, rounds, words)
}

// The words as they are packed, each with the bits that follow it, and with its bytes in reverse.
fn gather_words(s: &[u8], words: &mut [u32], trucks: u8)
    requires { (trucks ≤ 32) × (length words.old ≤ 16908030) }
    ensures { words.new ≡ tab (gathered_word s.now trucks) (length words.old) }
{
    let n = trucks as usize;
    let mut at = recording::word_place(trucks, 0);
    for word in words.iter_mut() {
        *word = bitreader::read_at(s, at, 32).swap_bytes();
        at += n;
    }
}

fn turned_word(x: u32, n: usize) -> u32
    ensures { result ≡ turned_word n x }
{
    let all = bitreader::mirror(x.swap_bytes(), 32) as u64;
    bitreader::low_bits(all, n) as u32
}

// The words that were gathered, in plain form.
fn turn_words(words: &mut [u32], n: usize)
    ensures { words.new ≡ map (turned_word n) words.old }
{
    for word in words.iter_mut() {
        *word = turned_word(*word, n);
    }
}

// In two passes, since a loop that does nothing else turns four words round at once. To turn a word round is to reverse its bytes, and the bits within each.
// The bytes are reversed when a word is gathered, by one instruction; for turning they are reversed back and again, which the compiler leaves out.
fn fill_words(s: &[u8], words: &mut [u32], trucks: u8)
    requires { (trucks ≡ trucks_of s.now) × ((trucks ≤ 32) × (length words.old ≤ 16908030)) }
    ensures { words.new ≡ tab (word_at s.now) (length words.old) }
{
    gather_words(s, words, trucks);
    turn_words(words, trucks as usize);
}

// Reading to plain form: refusals 1 to 6, then 9.
pub fn read(s: &[u8], openings: &mut [u8], words: &mut [u32]) -> Result<Counts, Refusal>
    ensures { after_read result openings.new words.new ≡ read_plain s.now openings.old words.old }
{
    recording::check(s)?;
    let counts = recording::read_counts(s);
    let n = counts.trucks as usize;
    let count = counts.rounds as usize * (3 + n);
    if (openings.len() < n) | (words.len() < count) {
        return Err(Refusal::ShortBuffer);
    }
    recording::read_front(s, openings);
    fill_words(s, &mut words[..count], counts.trucks);
    Ok(counts)
}

// Puts bits into a buffer. The digits that are not put out yet are the lowest `have` of `acc`, and `at` is the place of the byte that they begin. What was put
// out stays in `acc` above them: to cut it off takes time.
struct Packer<'a> {
    buf: &'a mut [u8],
    acc: u64,
    have: usize,
    at: usize,
}

impl<'a> Packer<'a> {
    // Begins with the header and the openings: the bits of the packed form before the words, whatever these are.
    fn begin(buf: &'a mut [u8], trucks: u8, rounds: u16, openings: &[u8]) -> Packer<'a>
        requires { (trucks ≤ 32) × ((rounds ≤ 400) × ((bad_openings trucks openings.now ≡ false) × (opening_place trucks ≤ 8 * length buf.old))) }
        ensures same_buffer { result.buf.ghost_name ≡ buf.entry.ghost_name }
        ensures bits { (words : List ℕ) → BitsPut (pack_bit trucks rounds openings.now words) (opening_place trucks)
            result.at result.have result.acc buf.old result.buf.now }
    {
        let mut packer = Packer {
            buf,
            acc: trucks as u64 * 1024 + rounds as u64,
            have: recording::HEADER_BITS,
            at: 0,
        };
        for opening in openings {
            packer.put(*opening as u32, 4);
        }
        packer
    }

    // Adds the k digits of v, and puts out four bytes where they are full: they become one store.
    fn put(&mut self, v: u32, k: usize)
        requires { (self.old.have < 32) × ((k ≤ 32) × ((v < 2 ^ k) × (self.old.at + 4 * ((self.old.have + k) / 32) ≤ length self.old.buf.now))) }
        ensures same_buffer { self.new.buf.ghost_name ≡ self.old.buf.ghost_name }
        ensures bytes { self.new.buf.now
            ≡ over (byte_of (added self.old.acc v k) (self.old.have + k)) self.old.at (4 * ((self.old.have + k) / 32)) self.old.buf.now }
        ensures acc { self.new.acc ≡ added self.old.acc v k }
        ensures have { self.new.have ≡ (self.old.have + k) % 32 }
        ensures at { self.new.at ≡ self.old.at + 4 * ((self.old.have + k) / 32) }
    {
        self.acc = (self.acc << k) + v as u64;
        self.have += k;
        if 32 <= self.have {
            self.have -= 32;
            let full = ((self.acc >> self.have) % 4294967296) as u32;
            self.buf[self.at..self.at + 4].copy_from_slice(&full.to_be_bytes());
            self.at += 4;
        }
    }

    // Puts out the digits that are left, with seven zeros behind them: these complete the last byte, and what they begin is not put out.
    fn finish(self)
        requires { (self.have < 32) × (self.at + (self.have + 7) / 8 ≤ length self.buf.now) }
        ensures { self.exit.0.now
            ≡ over (byte_of (added self.entry.acc 0 7) (self.entry.have + 7)) self.entry.at ((self.entry.have + 7) / 8) self.entry.buf.now }
    {
        let Packer { buf, acc, have, at } = self;
        let all = acc << 7;
        let digits = have + 7;
        for j in 0..digits / 8 {
            buf[at + j] = ((all >> (digits - 8 * (j + 1))) % 256) as u8;
        }
    }
}

// Puts out all fields; the first bit of a word is worth most here.
fn put_all(buf: &mut [u8], trucks: u8, rounds: u16, openings: &[u8], words: &[u32])
    requires { (plain_check trucks rounds openings.now words.now ≡ Ok tt) × (bytes_for trucks rounds ≤ length buf.old) }
    ensures { buf.new
        ≡ filled (packed_byte trucks rounds openings.now words.now) (bytes_for trucks rounds) buf.old }
{
    let n = trucks as usize;
    let mut packer = Packer::begin(buf, trucks, rounds, openings);
    for word in words {
        packer.put(bitreader::mirror(*word, n), n);
    }
    packer.finish();
}

// Writing: refusals 2, 3, 7, 8, 6, then 9.
pub fn write(
    trucks: u8,
    rounds: u16,
    openings: &[u8],
    words: &[u32],
    buf: &mut [u8],
) -> Result<usize, Refusal>
    ensures { after_write result buf.new ≡ write_plain trucks rounds openings.now words.now buf.old }
{
    check_plain(trucks, rounds, openings, words)?;
    let m = recording::bytes_for(trucks, rounds);
    if buf.len() < m {
        return Err(Refusal::ShortBuffer);
    }
    put_all(buf, trucks, rounds, openings, words);
    Ok(m)
}
