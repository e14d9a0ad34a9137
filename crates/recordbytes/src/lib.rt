// A fleet record as 323 bytes, for callers in other languages. specs/Layout says which byte is what.
#![tactic(auto)]

ghost use Rattle.std.specs.Prelude.{◌≡◌, false, ◌+◌, ◌≤◌, ◌<◌, length, get_or, MatchOption};
ghost use Rattle.std.specs.List.{list_any};
ghost use Rattle.std.proofs.lemmas.List.Edits.{sets};
ghost use Rattle.basics.specs.Lists.{filled};
ghost use Rattle.recording.specs.Checks.{bad_trucks};
ghost use Rattle.recordbytes.specs.Layout.{size_for, heard_byte, state_byte, round_of, truck_bytes, record_byte, pack_check, pack_for, packed_record, packed_whole};
ghost use Rattle.recordbytes.specs.Layout.{heard_of_byte, state_of_byte, pair_of, truck_of, damaged_place, ArePartsOf, trucks_of, damaged_parts, record_of_parts, truck_in, with_truck, damaged, unpacked};

use protocol::{Answer, Fleet, Heard, Sent, State, Truck};
use refusals::Refusal;

// A record's bytes are those of its head, and then of each place.
const HEAD: usize = 3;

const PLACE: usize = 10;

const PLACES: usize = 32;

const RECORD: usize = HEAD + PLACE * PLACES;

// (No `From`: the enums are those of `protocol`, which has no code, and the layout is this crate's.)
fn heard_byte(h: Heard) -> u8
    ensures { result ≡ heard_byte h }
{
    match h {
        Heard::Nothing => 0,
        Heard::One => 1,
        Heard::Several => 2,
    }
}

fn state_byte(s: State) -> u8
    ensures { result ≡ state_byte s }
{
    match s {
        State::Running => 0,
        State::Stopped(_) => 1,
        State::Decided(_) => 2,
    }
}

// The round of a stop or a decision; 0, as the layout has it, of a running truck.
fn round_of(s: State) -> u16
    ensures { result ≡ round_of s }
{
    match s {
        State::Running => 0,
        State::Stopped(k) | State::Decided(k) => k,
    }
}

fn truck_bytes(t: Truck) -> [u8; PLACE]
    ensures { result ≡ truck_bytes t }
{
    let [low, high] = round_of(t.state).to_le_bytes();
    [
        t.opening,
        t.estimate,
        u8::from(t.mark),
        heard_byte(t.heard),
        state_byte(t.state),
        low,
        high,
        t.sent.proposals,
        t.sent.vetoes,
        u8::from(t.unwilling),
    ]
}

// Puts the bytes of a truck from place `at` of a buffer on. (The loop compiles to ten stores; `copy_from_slice` sends the bytes over the stack.)
fn put_truck(d: &mut [u8], at: usize, t: Truck)
    requires { at + 10 ≤ length d.old }
    ensures { d.new ≡ sets d.old at (truck_bytes t) }
{
    for (i, b) in truck_bytes(t).iter().enumerate() {
        d[at + i] = *b;
    }
}

// Puts the head and the first m places of a record into a buffer that has room for all. (Lent as an array of 323 bytes it proved no better: what `first_chunk_mut` gives
// back to the slice stayed open.)
fn put(f: Fleet, m: usize, d: &mut [u8])
    requires { (m ≤ 32) × (size_for 32 ≤ length d.old) }
    ensures { d.new ≡ filled (record_byte f) (size_for m) d.old }
{
    let [low, high] = f.done.to_le_bytes();
    d[0] = f.n;
    d[1] = low;
    d[2] = high;
    for i in 0..m {
        put_truck(d, HEAD + PLACE * i, f.trucks[i]);
    }
}

// Refusals 7 and 9 of a record of n trucks and a buffer of some bytes.
fn check(n: u8, room: usize) -> Result<(), Refusal>
    ensures { result ≡ pack_check n room }
{
    if recording::bad_trucks(n) {
        return Err(Refusal::Record);
    }
    if room < RECORD {
        return Err(Refusal::ShortBuffer);
    }
    Ok(())
}

// Puts the head and the first m places of a record, where 7 and 9 let it pass.
fn pack_places(f: Fleet, m: usize, d: &mut [u8]) -> Result<(), Refusal>
    requires { bad_trucks f.n ≡ false → m ≤ 32 }
    ensures answer { result ≡ pack_check f.n (length d.old) }
    ensures buffer { d.new ≡ pack_for (pack_check f.n (length d.old)) m f d.old }
{
    check(f.n, d.len())?;
    put(f, m, d);
    Ok(())
}

// Brings the bytes of a record up to date: places n and above stay as they are.
pub fn pack(f: Fleet, d: &mut [u8]) -> Result<(), Refusal>
    ensures answer { result ≡ pack_check f.n (length d.old) }
    ensures buffer { d.new ≡ packed_record f d.old }
{
    pack_places(f, f.n as usize, d)
}

// Puts a whole record, all 32 places.
pub fn pack_whole(f: Fleet, d: &mut [u8]) -> Result<(), Refusal>
    ensures answer { result ≡ pack_check f.n (length d.old) }
    ensures buffer { d.new ≡ packed_whole f d.old }
{
    pack_places(f, PLACES, d)
}

fn heard_of(b: u8) -> Heard
    ensures { result ≡ heard_of_byte b }
{
    match b {
        1 => Heard::One,
        2 => Heard::Several,
        _ => Heard::Nothing,
    }
}

fn state_of(b: u8, k: u16) -> State
    ensures { result ≡ state_of_byte b k }
{
    match b {
        1 => State::Stopped(k),
        2 => State::Decided(k),
        _ => State::Running,
    }
}

// A number of two bytes, low byte first.
pub fn pair(low: u8, high: u8) -> u16
    ensures { result ≡ pair_of low high }
{
    u16::from_le_bytes([low, high])
}

// The parts of bytes that are enough for a record.
#[derive(Clone, Copy)]
struct Parts<'a> {
    head: &'a [u8; HEAD],
    places: &'a [[u8; PLACE]; PLACES],
}

// (The first line compiles to the only test: enough bytes for a record have all the parts.)
fn split(d: &[u8]) -> Option<Parts<'_>>
    ensures { MatchOption result (length d.now < size_for 32) (λ p. ArePartsOf d.now p.head.now p.places.now) }
{
    let record: &[u8; RECORD] = d.first_chunk()?;
    let (head, rest) = record.split_first_chunk()?;
    let (places, _) = rest.as_chunks();
    let places = places.first_chunk()?;
    Some(Parts { head, places })
}

fn truck_of(place: &[u8; PLACE]) -> Truck
    ensures { result ≡ truck_of place.now }
{
    let [
        opening,
        estimate,
        mark,
        heard,
        state,
        low,
        high,
        proposals,
        vetoes,
        unwilling,
    ] = *place;
    Truck {
        opening,
        estimate,
        mark: mark == 1,
        heard: heard_of(heard),
        unwilling: unwilling == 1,
        state: state_of(state, pair(low, high)),
        sent: Sent { proposals, vetoes },
    }
}

fn damaged_place(place: &[u8; PLACE]) -> bool
    ensures { result ≡ damaged_place place.now }
{
    let [_, _, mark, heard, state, low, high, _, _, unwilling] = *place;
    let round = pair(low, high);
    (1 < mark) | (2 < heard) | (2 < state) | ((state == 0) & (0 < round)) | (1 < unwilling)
}

fn some_damaged(places: &[[u8; PLACE]]) -> bool
    ensures { result ≡ list_any damaged_place places.now }
{
    places.iter().any(damaged_place)
}

// The trucks of the places, among those of a record of no trucks.
fn with_trucks(places: &[[u8; PLACE]]) -> [Truck; PLACES]
    requires { length places.now ≤ 32 }
    ensures { result ≡ trucks_of places.now }
{
    let mut trucks = fleetrecord::blank().trucks;
    for (i, place) in places.iter().enumerate() {
        trucks[i] = truck_of(place);
    }
    trucks
}

// Bytes that are enough are no record all the same.
fn damaged_parts(p: Parts<'_>) -> bool
    ensures { result ≡ damaged_parts p.entry.head.now p.entry.places.now }
{
    let Parts { head, places } = p;
    let [n, _, _] = *head;
    recording::bad_trucks(n) || some_damaged(&places[..n as usize])
}

fn record_of(p: Parts<'_>) -> Fleet
    requires { get_or p.head.now 0 0 ≤ 32 }
    ensures { result ≡ record_of_parts p.entry.head.now p.entry.places.now }
{
    let Parts { head, places } = p;
    let [n, low, high] = *head;
    Fleet {
        n,
        done: pair(low, high),
        trucks: with_trucks(&places[..n as usize]),
    }
}

// The bytes are no record.
pub fn damaged(d: &[u8]) -> bool
    ensures { result ≡ damaged d.now }
{
    match split(d) {
        Some(p) => damaged_parts(p),
        None => true,
    }
}

// Takes bytes for a record: refusal 7 where they are none.
pub fn unpack(d: &[u8]) -> Answer
    ensures { result ≡ unpacked d.now }
{
    match split(d) {
        Some(p) if !damaged_parts(p) => Answer {
            outcome: Ok(()),
            fleet: record_of(p),
        },
        _ => fleetrecord::refused(Refusal::Record),
    }
}

// The truck of a place, for a caller that takes no whole record; one that starts where there is no such place, as the clause says.
pub fn truck_in(d: &[u8], i: usize) -> Truck
    ensures { result ≡ truck_in d.now i }
{
    match split(d) {
        Some(p) if i < PLACES => {
            let places = p.places;
            truck_of(&places[i])
        }
        _ => fleetrecord::opened(0),
    }
}

// Puts a truck into a place.
pub fn put_in(d: &mut [u8], i: usize, t: Truck)
    ensures { d.new ≡ with_truck d.old i t }
{
    if (d.len() < RECORD) | (PLACES <= i) {
        return;
    }
    put_truck(d, HEAD + PLACE * i, t);
}
