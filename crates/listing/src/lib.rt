// The text that is printed for a recording, in a lent buffer.
#![tactic(auto)]

ghost use Rattle.std.specs.Prelude.{◌≡◌, ℕ, List, [], ◌++◌, ◌+◌, ◌≤◌, length, take};
ghost use Rattle.basics.specs.Lists.{sum_below};
ghost use Rattle.protocol.specs.Rules.{truck};
ghost use Rattle.listing.specs.Text.{decimal, state_text, truck_line, truck_lines, listing_of, location_text, refusal_text};
ghost use Rattle.listing.specs.Listed.{left, text_in, listed, refusal_listed};
ghost use Rattle.listing.specs.Writing.{spaced, sent_line, two_text};

use protocol::{Fleet, State, Truck};
use refusals::{Location, Refusal};
use std::marker::Model;

// How many proposals and vetoes several trucks sent together.
#[derive(Clone, Copy)]
struct Totals {
    proposals: u16,
    vetoes: u16,
}

// A text of at most N bytes, put together part by part. It is no `fmt::Write`: `write!` promises a text only where it answers `Ok`, and no
// contract says where it does, so that each listing would need an answer for a failure that there is not.
#[derive(Drop)]
struct Text<const N: usize> {
    bytes: [u8; N],
    len: usize,
}

impl<const N: usize> Model for Text<N> {
    ghost Value = { List ℕ };

    ghost view = { λ t. take t.len t.bytes };

    ghost invariant = { λ t. t.len ≤ N };
}

impl<const N: usize> Text<N> {
    fn new() -> Self
        ensures { result ≡ [] }
    {
        Text {
            bytes: [0; N],
            len: 0,
        }
    }

    fn as_bytes(&self) -> &[u8]
        ensures { result.now ≡ self.now }
    {
        let bytes = &self.bytes[..];
        &bytes[..self.len]
    }

    fn put(&mut self, word: &[u8])
        requires { length self.old + length word.now ≤ N }
        ensures { self.new ≡ self.old ++ word.now }
    {
        let end = self.len + word.len();
        let bytes = &mut self.bytes[..];
        bytes[self.len..end].copy_from_slice(word);
        self.len = end;
    }

    // Puts a number in decimal. std prints one by `write!`, or into a `String`, which is on the heap.
    fn put_number(&mut self, k: u16)
        requires { length self.old + 5 ≤ N }
        ensures placed { self.new ≡ self.old ++ decimal k }
        ensures within { length self.new ≤ length self.old + 5 }
    {
        if 10 <= k {
            self.put_number(k / 10);
        }
        self.put(&[b'0' + (k % 10) as u8]);
    }

    // Puts a word, a number, another word, and another number.
    fn put_two(&mut self, first: &[u8], a: u16, second: &[u8], b: u16)
        requires { length self.old + length first.now + length second.now + 10 ≤ N }
        ensures placed { self.new ≡ self.old ++ two_text first.now a second.now b }
        ensures within { length self.new ≤ length self.old + length first.now + length second.now + 10 }
    {
        self.put(first);
        self.put_number(a);
        self.put(second);
        self.put_number(b);
    }

    // Puts a truck's state, crusher and, where it has one, round.
    #[tactic(auto, unfolding(crate::specs::Text::state_text))]
    fn put_state(&mut self, state: State, crusher: u8)
        requires { length self.old + 26 ≤ N }
        ensures placed { self.new ≡ self.old ++ spaced (state_text state crusher) }
        ensures within { length self.new ≤ length self.old + 26 }
    {
        match state {
            State::Running => {
                self.put(b" running ");
                self.put_number(crusher as u16);
            }
            State::Stopped(k) => self.put_two(b" stopped ", crusher as u16, b" round ", k),
            State::Decided(k) => self.put_two(b" decided ", crusher as u16, b" round ", k),
        }
    }

    // Puts how much was sent, and the end of the line.
    #[tactic(auto, unfolding(crate::specs::Text::sent_text))]
    fn put_sent(&mut self, proposals: u16, vetoes: u16)
        requires { length self.old + 24 ≤ N }
        ensures placed { self.new ≡ self.old ++ sent_line proposals vetoes }
        ensures within { length self.new ≤ length self.old + 24 }
    {
        self.put_two(b"sent ", proposals, b" vetoes ", vetoes);
        self.put(b"\n");
    }

    // Puts the line of truck i.
    #[tactic(auto, unfolding(crate::specs::Text::truck_line, crate::specs::Text::sent_text))]
    fn put_line(&mut self, i: u16, t: &Truck)
        requires { length self.old + 69 ≤ N }
        ensures placed { self.new ≡ self.old ++ truck_line i t.now }
        ensures within { length self.new ≤ length self.old + 69 }
    {
        self.put_number(i);
        self.put(b" opened ");
        self.put_number(t.opening as u16);
        self.put_state(t.state, t.estimate);
        self.put(b" ");
        self.put_sent(t.sent.proposals as u16, t.sent.vetoes as u16);
    }

    // Puts the lines of the fleet's trucks.
    #[tactic(auto, unfolding(crate::specs::Text::truck_lines))]
    fn put_lines(&mut self, f: &Fleet)
        requires { (length self.old + 2208 ≤ N) × (f.now.n ≤ 32) }
        ensures placed { self.new ≡ self.old ++ truck_lines f.now.trucks f.now.n }
        ensures within { length self.new ≤ length self.old + 2208 }
    {
        for (i, t) in f.trucks[..f.n as usize].iter().enumerate() {
            self.put_line(i as u16, t);
        }
    }

    // Puts the whole listing.
    #[tactic(auto, unfolding(crate::specs::Text::listing_of, crate::specs::Text::totals_line))]
    fn put_listing(&mut self, f: &Fleet)
        requires { (length self.old + 2258 ≤ N) × (f.now.n ≤ 32) }
        ensures { self.new ≡ self.old ++ listing_of f.now }
    {
        self.put_two(b"trucks ", f.n as u16, b" rounds ", f.done);
        self.put(b"\n");
        self.put_lines(f);
        let sum = sum_sent(f);
        self.put_sent(sum.proposals, sum.vetoes);
    }

    // Puts the round and the truck that a refusal names.
    #[tactic(auto, unfolding(crate::specs::Text::location_text))]
    fn put_location(&mut self, p: Option<Location>)
        requires { length self.old + 24 ≤ N }
        ensures placed { self.new ≡ self.old ++ location_text p }
        ensures within { length self.new ≤ length self.old + 24 }
    {
        if let Some(p) = p {
            self.put_two(b" round ", p.round, b" truck ", p.truck as u16);
        }
    }

    // Puts the line of a refused recording.
    #[tactic(auto, unfolding(crate::specs::Text::refusal_text))]
    fn put_refusal(&mut self, r: Refusal)
        requires { length self.old + 38 ≤ N }
        ensures { self.new ≡ self.old ++ refusal_text r }
    {
        self.put(b"refused ");
        self.put_number(u8::from(r) as u16);
        self.put_location(refusals::location_of(r));
        self.put(b"\n");
    }
}

// How much the fleet's trucks sent in total. (That there are at most 32 is asked here and by the two that put them; a type for it would be a second fleet.)
#[tactic(auto, unfolding(basics::specs::Lists::sum_below))]
fn sum_sent(f: &Fleet) -> Totals
    requires { f.now.n ≤ 32 }
    ensures proposals { result.proposals ≡ sum_below (λ i. (truck f.now.trucks i).sent.proposals) f.now.n }
    ensures vetoes { result.vetoes ≡ sum_below (λ i. (truck f.now.trucks i).sent.vetoes) f.now.n }
{
    let mut proposals = 0;
    let mut vetoes = 0;
    for t in &f.trucks[..f.n as usize] {
        proposals += t.sent.proposals as u16;
        vetoes += t.sent.vetoes as u16;
    }
    Totals { proposals, vetoes }
}

// Copies a text to the lent buffer where it is long enough.
#[tactic(auto, unfolding(crate::specs::Listed::text_in))]
fn lend_text(t: &[u8], buf: &mut [u8]) -> Result<usize, Refusal>
    ensures { left result buf.new ≡ text_in t.now buf.old }
{
    if t.len() <= buf.len() {
        buf[..t.len()].copy_from_slice(t);
        Ok(t.len())
    } else {
        Err(Refusal::ShortBuffer)
    }
}

// The line that is printed for a refused recording.
#[tactic(auto, unfolding(crate::specs::Listed::refusal_listed))]
pub fn refusal_line(r: Refusal, buf: &mut [u8]) -> Result<usize, Refusal>
    ensures { left result buf.new ≡ refusal_listed r buf.old }
{
    // 8 bytes for the word, 5 for the number, 24 for a location and 1 for the end of the line.
    let mut text = Text::<38>::new();
    text.put_refusal(r);
    lend_text(text.as_bytes(), buf)
}

// The listing of a recording's run.
#[tactic(auto, using(crate::proofs::Laws::run_small), unfolding(crate::specs::Listed::listed))]
pub fn list(s: &[u8], buf: &mut [u8]) -> Result<usize, Refusal>
    ensures { left result buf.new ≡ listed s.now buf.old }
{
    let a = playback::run(s);
    a.outcome?;
    // 26 bytes for the first line, 69 for each of 32 trucks and 24 for the last line.
    let mut text = Text::<2258>::new();
    text.put_listing(&a.fleet);
    lend_text(text.as_bytes(), buf)
}
