// What a truck hears of a round, by sets of trucks.
ghost use Rattle.std.specs.Prelude.{◌≡◌, ◌≤◌};
ghost use Rattle.std.specs.Int.Bits.{bit_and, bit_or};
ghost use Rattle.basics.specs.Lists.{first};
ghost use Rattle.sets.specs.Sets.{without};
ghost use Rattle.playback.specs.Sets.{was_heard, values_of};

use protocol::Heard;

// The senders that a truck hears, whose own set is given.
pub fn heard_by(senders: u32, row: u32, own: u32) -> u32
    ensures { result ≡ bit_or (without senders row) (bit_and senders own) }
{
    sets::without(senders, row) | (senders & own)
}

// The least crusher that was heard, or 16 where none was, as `first` says it. None before `from` was.
pub(crate) fn first_heard(by: &[u32; 16], heard: u32, from: usize) -> usize
    requires { (from ≤ 16) × (first (was_heard by.now heard) from ≡ from) }
    ensures { result ≡ first (was_heard by.now heard) 16 }
{
    // a `for` over the range takes an instruction more for each row, 2 in 100 of a two-round run
    let mut c = from;
    while c < 16 {
        if heard & by[c] != 0 {
            return c;
        }
        c += 1;
    }
    16
}

// How many different values were heard, and the least of them.
#[derive(Clone, Copy)]
pub struct Values {
    pub heard: Heard,
    pub least: u8,
}

// What was heard, where by holds the trucks of each crusher; the least value is the estimate where none was heard.
pub fn values_of(by: &[u32; 16], heard: u32, estimate: u8) -> Values
    ensures { result ≡ values_of by.now heard estimate }
{
    let c = first_heard(by, heard, 0);
    if c < 16 {
        let several = sets::without(heard, by[c]) != 0;
        return Values {
            heard: if several { Heard::Several } else { Heard::One },
            least: c as u8,
        };
    }
    Values {
        heard: Heard::Nothing,
        least: estimate,
    }
}
