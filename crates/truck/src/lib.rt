// What a round makes of one truck: by value, and where its record stands.
#![tactic(auto)]

ghost use Rattle.std.specs.Prelude.{cond, ◌≡◌, min};
ghost use Rattle.protocol.specs.Rules.{runs, vetoes, counted, stops, proposed, vetoed, decides};
ghost use Rattle.protocol.specs.Six.{stops_six, after_prepare, after_bit, accepts, after_accept};
ghost use Rattle.truck.specs.Events.{adds, happened, turned, updated_first};

use protocol::{Fleet, Heard, Sent, State, Truck};

// What a round is to a running truck.
#[derive(Clone, Copy)]
pub enum Event {
    // In the two-round cycle: its stop bit is set.
    Stop,
    // A proposal round: whether it sends, its mark, how many different values it heard, and the least of them (its estimate where it heard none).
    Proposals {
        sends: bool,
        mark: bool,
        heard: Heard,
        least: u8,
    },
    // A veto round: whether it sends, its mark, and whether it heard a veto.
    Vetoes {
        sends: bool,
        mark: bool,
        veto: bool,
    },
    // In the six-round cycle: its stop bit is set.
    StopSix,
    // Prepare: its mark, and the least value that it heard (its estimate where it heard none).
    Prepare {
        mark: bool,
        least: u8,
    },
    // A bit round: that bit of its estimate, and whether it noticed a message or a mark.
    Bit {
        bit: bool,
        noticed: bool,
    },
    // Accept: whether it noticed a message or a mark.
    Accept {
        noticed: bool,
    },
}

// The truck is running.
pub fn runs(t: Truck) -> bool
    ensures { result ≡ runs t }
{
    matches!(t.state, State::Running)
}

// What it heard in a proposal round makes the truck veto in the next.
pub fn vetoes(t: Truck) -> bool
    ensures { result ≡ vetoes t }
{
    t.mark | (t.heard == Heard::Several)
}

// A stop forgets other things in the two cycles, so each has a function of its own.
fn after_stop(t: Truck, round: u16) -> Truck
    ensures { result ≡ stops round t }
{
    Truck {
        mark: false,
        heard: Heard::Nothing,
        state: State::Stopped(round),
        ..t
    }
}

// A count with 1 more where the truck sends and the count has room.
fn count(sends: bool, c: u8) -> u8
    ensures { result ≡ counted (adds sends c) c }
{
    if sends { c.saturating_add(1) } else { c }
}

// The estimate after a round for proposals: with a mark the truck keeps its own.
fn estimate_after(t: Truck, mark: bool, least: u8) -> u8
    ensures { result ≡ cond mark t.estimate least }
{
    if mark { t.estimate } else { least }
}

fn after_proposals(t: Truck, sends: bool, mark: bool, heard: Heard, least: u8) -> Truck
    ensures { result ≡ proposed (adds sends t.sent.proposals) mark heard least t }
{
    let sent = Sent {
        proposals: count(sends, t.sent.proposals),
        ..t.sent
    };
    Truck {
        estimate: estimate_after(t, mark, least),
        mark,
        heard,
        sent,
        ..t
    }
}

// Whether a truck decides after a veto round.
fn decides(t: Truck, mark: bool, veto: bool) -> bool
    ensures { result ≡ decides mark veto t }
{
    !veto & !mark & (t.heard == Heard::One)
}

fn after_vetoes(t: Truck, round: u16, sends: bool, mark: bool, veto: bool) -> Truck
    ensures { result ≡ vetoed round (adds sends t.sent.vetoes) mark veto t }
{
    let state = if decides(t, mark, veto) {
        State::Decided(round)
    } else {
        t.state
    };
    let sent = Sent {
        vetoes: count(sends, t.sent.vetoes),
        ..t.sent
    };
    Truck {
        mark: false,
        heard: Heard::Nothing,
        state,
        sent,
        ..t
    }
}

fn after_stop_six(t: Truck, round: u16) -> Truck
    ensures { result ≡ stops_six round t }
{
    Truck {
        unwilling: false,
        state: State::Stopped(round),
        ..t
    }
}

fn after_prepare(t: Truck, mark: bool, least: u8) -> Truck
    ensures { result ≡ after_prepare mark least t }
{
    Truck {
        estimate: estimate_after(t, mark, least),
        unwilling: false,
        ..t
    }
}

fn after_bit(t: Truck, bit: bool, noticed: bool) -> Truck
    ensures { result ≡ after_bit bit noticed t }
{
    let unwilling = t.unwilling | (!bit & noticed);
    Truck { unwilling, ..t }
}

// Whether a truck decides in accept.
fn accepts(t: Truck, noticed: bool) -> bool
    ensures { result ≡ accepts noticed t }
{
    !t.unwilling & !noticed
}

fn after_accept(t: Truck, round: u16, noticed: bool) -> Truck
    ensures { result ≡ after_accept round noticed t }
{
    let state = if accepts(t, noticed) {
        State::Decided(round)
    } else {
        t.state
    };
    Truck {
        unwilling: false,
        state,
        ..t
    }
}

fn after_event(t: Truck, round: u16, event: Event) -> Truck
    ensures { result ≡ happened round event t }
{
    match event {
        Event::Stop => after_stop(t, round),
        Event::Proposals {
            sends,
            mark,
            heard,
            least,
        } => after_proposals(t, sends, mark, heard, least),
        Event::Vetoes { sends, mark, veto } => after_vetoes(t, round, sends, mark, veto),
        Event::StopSix => after_stop_six(t, round),
        Event::Prepare { mark, least } => after_prepare(t, mark, least),
        Event::Bit { bit, noticed } => after_bit(t, bit, noticed),
        Event::Accept { noticed } => after_accept(t, round, noticed),
    }
}

// The form by value. A truck that isn't running is left alone.
pub fn updated(t: Truck, round: u16, event: Event) -> Truck
    ensures { result ≡ turned round event t }
{
    match t.state {
        State::Running => after_event(t, round, event),
        State::Stopped(_) | State::Decided(_) => t,
    }
}

// The truck's record is brought up to date where it stands.
pub fn update(t: &mut Truck, round: u16, event: Event)
    ensures { t.new ≡ turned round event t.old }
{
    *t = updated(*t, round, event);
}

// The first n trucks of a fleet, each brought up to date where it stands in the fleet: events[i] is what the round is to truck i. There are 32 places, so a
// larger n means all of them.
pub fn update_first(mut f: Fleet, n: usize, round: u16, events: [Event; 32]) -> Fleet
    ensures { result ≡ updated_first f (min n 32) round events }
{
    for i in 0..n.min(32) {
        update(&mut f.trucks[i], round, events[i]);
    }
    f
}
