// The opening crusher (document 01, and F-2 of document 02): the road of least exact time. The code chooses by float estimates,
// whose order is proved to be that of the exact fractions.
#![tactic(auto)]

ghost use Rattle.std.specs.Prelude.{◌≡◌, ◌≤◌, length};
ghost use Rattle.roads.specs.Estimates.{leg_of, estimate_of};
ghost use Rattle.roads.specs.Opening.{bad_lists, seconds_above, no_time, opening_of};
ghost use Rattle.roads.specs.Choice.{better_of, chosen_below, estimate_at};

use refusals::Refusal;

// A road's leg.
#[derive(Clone, Copy)]
pub struct Leg {
    pub length: f64,
    pub metres: f64,
    pub seconds: f64,
}

// The road chosen so far, with its estimate.
#[derive(Clone, Copy)]
struct Fastest {
    road: u8,
    seconds: f64,
}

// Every 16-bit number is an f64, so the casts lose nothing.
pub fn leg_of(length: u16, metres: u16, seconds: u16) -> Leg
    ensures { result ≡ leg_of length metres seconds }
{
    Leg {
        length: length as f64,
        metres: metres as f64,
        seconds: seconds as f64,
    }
}

// The seconds that a road takes: one product and one division. None where it is passed over, being idle and longer than 0: length 0
// takes 0 seconds, and 0 metres are tested before a quotient is formed by them.
pub fn estimate_of(leg: Leg) -> Option<f64>
    ensures { result ≡ estimate_of leg }
{
    if leg.length == 0.0 {
        return Some(0.0);
    }
    if leg.metres == 0.0 {
        return None;
    }
    Some(leg.length * leg.seconds / leg.metres)
}

// A road takes over where its estimate is smaller, so the lowest number stays on a tie.
#[tactic(auto, unfolding(crate::specs::Choice::better_of))]
fn better(best: Option<Fastest>, road: u8, estimate: Option<f64>) -> Option<Fastest>
    ensures { result ≡ better_of best road estimate }
{
    match estimate {
        Some(seconds) if best.is_none_or(|b| seconds < b.seconds) => Some(Fastest {
            road,
            seconds,
        }),
        _ => best,
    }
}

// No roads, more than 16, or lists of unequal length. (Three lists and no list of roads: callers in C lend three, and this refusal speaks of their lengths.)
fn bad_lists(lengths: &[u16], metres: &[u16], seconds: &[u16]) -> bool
    ensures { result ≡ bad_lists lengths.now metres.now seconds.now }
{
    let n = lengths.len();
    n == 0 || 16 < n || metres.len() != n || seconds.len() != n
}

// Some seconds are above the limit.
fn above_limit(seconds: &[u16]) -> bool
    ensures { result ≡ seconds_above seconds.now }
{
    seconds.iter().any(|s| 3600 < *s)
}

// Some road has metres above 0 in 0 seconds.
fn without_time(metres: &[u16], seconds: &[u16]) -> bool
    requires { length metres.now ≡ length seconds.now }
    ensures { result ≡ no_time metres.now seconds.now }
{
    metres.iter().zip(seconds).any(|(m, s)| 0 < *m && *s == 0)
}

// The road of the smallest estimate, among those that are not passed over.
#[tactic(auto, unfolding(crate::specs::Choice::chosen_below))]
fn fastest_road(lengths: &[u16], metres: &[u16], seconds: &[u16]) -> Option<Fastest>
    requires { (length metres.now ≡ length lengths.now) × (length seconds.now ≡ length lengths.now) × (length lengths.now ≤ 16) }
    ensures { result ≡ chosen_below (estimate_at lengths.now metres.now seconds.now) (length lengths.now) }
{
    let mut best = None;
    for (k, length) in lengths.iter().enumerate() {
        let leg = leg_of(*length, metres[k], seconds[k]);
        best = better(best, k as u8, estimate_of(leg));
    }
    best
}

// The crusher that a truck opens with, from the lengths, metres and seconds of its roads. Each check goes over all roads before
// the next one starts.
pub fn opening_crusher(lengths: &[u16], metres: &[u16], seconds: &[u16]) -> Result<u8, Refusal>
    ensures { result ≡ opening_of lengths.now metres.now seconds.now }
{
    if bad_lists(lengths, metres, seconds) {
        return Err(Refusal::RoadLists);
    }
    if above_limit(seconds) {
        return Err(Refusal::Seconds);
    }
    if without_time(metres, seconds) {
        return Err(Refusal::NoTime);
    }
    match fastest_road(lengths, metres, seconds) {
        None => Err(Refusal::AllIdle),
        Some(fastest) => Ok(fastest.road),
    }
}
