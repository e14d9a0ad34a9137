// 64 counts at once, by binary digits: word i holds digit i of each count, and bit p of a word belongs to the count at place p. A round adds to the counts of
// its senders without touching the others, and by whole words.
#![tactic(auto)]

ghost use Rattle.std.specs.Prelude.{◌≡◌};
ghost use Rattle.counters.specs.Counters.{counted_up, in_use};

// One more at the places of a set. A count of 255 starts again at 0.
pub fn count_up(words: &mut [u64; 8], who: u64)
    ensures { words.new ≡ counted_up words.old who }
{
    let mut carry = who;
    for word in words.iter_mut() {
        if carry == 0 {
            break;
        }
        let digits = *word;
        *word = digits ^ carry;
        carry &= digits;
    }
}

// How many words there are up to the last that isn't 0: the others hold no digit of any count.
pub fn in_use(words: &[u64; 8]) -> usize
    ensures { result ≡ in_use words.now 8 }
{
    words
        .iter()
        .rposition(|word| *word != 0)
        .map_or(0, |i| i + 1)
}
