// Rounds by sets in packed order: the truck at place p of a set is truck 31 - p.
ghost use Rattle.std.specs.Prelude.{◌≡◌, not, ◌&&◌, ◌<◌, ◌≤◌, ◌^◌, eqb};
ghost use Rattle.basics.specs.Bits.{bit};
ghost use Rattle.basics.specs.Lists.{filled};
ghost use Rattle.protocol.specs.Rules.{is_one};
ghost use Rattle.sets.specs.Sets.{Members, without};
ghost use Rattle.playback.specs.Sets.{Sorted, heard_set};
ghost use Rattle.playback.specs.Listens.{row_from, heard_from, some_value, settled};

use crate::hearing::{first_heard, heard_by};

// The row of the truck at place p, where the rows of n trucks begin at a place. Here and below the bytes, the place and n are three parameters: a struct of them
// goes by a pointer to a copy, and a run takes up to 3 in 100 more instructions.
fn row_of(s: &[u8], at: usize, n: usize, p: usize) -> u32
    requires { (n ≤ 32) × ((at < 2 ^ 32) × (p < 32)) }
    ensures { result ≡ row_from s.now at n p }
{
    bitreader::read_at(s, at + (31 - p) * n, 32)
}

// The senders that the truck at place p hears.
pub(crate) fn heard_of(s: &[u8], at: usize, n: usize, senders: u32, p: usize) -> u32
    requires { (n ≤ 32) × ((at < 2 ^ 32) × (p < 32)) }
    ensures { result ≡ heard_set senders (row_from s.now at n p) p }
{
    heard_by(senders, row_of(s, at, n, p), sets::only(p))
}

// Who heard a value, who of them one value alone where that is asked for, and who of them is to take each crusher.
#[derive(Clone, Copy)]
pub struct Hearing {
    pub some: u32,
    pub one: u32,
    pub taking: [u32; 16],
}

// What those wanted hear of the senders, where by holds the trucks of each crusher. Whether they hear one value or several is asked for by the two-round cycle
// alone: with it in prepare a run of the six-round cycle takes 2 to 5 in 100 more instructions.
pub(crate) fn hear<const COUNTED: bool>(
    s: &[u8],
    at: usize,
    n: usize,
    senders: u32,
    wanted: u32,
    by: &[u32; 16],
) -> Hearing
    requires { (n ≤ 32) × (at < 2 ^ 32) }
    ensures { Members result.some 32 (λ p. bit wanted p && some_value (heard_from s.now at n senders by.now p).heard)
        × (Members result.one 32 (λ p. bit wanted p && (COUNTED && is_one (heard_from s.now at n senders by.now p).heard))
        × Sorted result.taking 32 wanted (λ p. (heard_from s.now at n senders by.now p).least)) }
{
    let mut some = 0;
    let mut one = 0;
    let mut taking = [0u32; 16];
    // no truck hears a crusher that none of the senders has, so the search begins with the least that one has
    let low = first_heard(by, senders, 0);
    for p in sets::members_of(wanted) {
        let own = sets::only(p);
        let heard = heard_of(s, at, n, senders, p);
        let c = first_heard(by, heard, low);
        if c < 16 {
            let lone = COUNTED & (sets::without(heard, by[c]) == 0);
            one = sets::union_where(one, own, lone);
            some = some | own;
            taking[c] = taking[c] | own;
        }
    }
    Hearing { some, one, taking }
}

// Of those wanted, who hear some of the senders; none of those wanted sends itself. Those that hear none are the rest of them.
pub(crate) fn hearing_some(s: &[u8], at: usize, n: usize, senders: u32, wanted: u32) -> u32
    requires { (n ≤ 32) × (at < 2 ^ 32) }
    ensures { Members result 32 (λ p. bit wanted p && not (eqb (without senders (row_from s.now at n p)) 0)) }
{
    let mut out = 0;
    for p in sets::members_of(wanted) {
        let some = sets::without(senders, row_of(s, at, n, p)) != 0;
        // a moved bit takes fewer instructions than a choice between two sets
        out |= u32::from(some) << p;
    }
    out
}

// Those that change take what they heard.
pub(crate) fn settle(by: &mut [u32; 16], taking: &[u32; 16], changed: u32)
    ensures { by.new ≡ filled (settled by.old taking.now changed) 16 by.old }
{
    for (c, b) in by.iter_mut().enumerate() {
        *b = sets::without(*b, changed) | (taking[c] & changed);
    }
}
