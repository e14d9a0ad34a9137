// Sets of trucks, held in a word of 32 bits: bit i says whether truck i is in the set.
#![tactic(auto)]

ghost use Rattle.std.specs.Prelude.{◌≡◌, true, cond, ◌<◌, ◌^◌, ◌%◌, MatchOption};
ghost use Rattle.std.specs.Int.Bits.{bit_or};
ghost use Rattle.std.specs.Int.Count.{count_trailing_zeros};
ghost use Rattle.std.specs.Iterator.{at_most};
ghost use Rattle.basics.specs.Bits.{bit};
ghost use Rattle.sets.specs.Sets.{without, rest_of, lowest_only, IsNext};

// The lowest truck of a set, or 32 where it is empty: the number of zeros below it, as the clause says, so no `Option`.
pub fn lowest(set: u32) -> usize
    ensures { (result ≡ count_trailing_zeros 32 set) × ((set ≡ 0 → ⊥) → (result < 32) × (bit set result ≡ true)) }
{
    set.trailing_zeros() as usize
}

// A set without its lowest truck.
pub fn rest(set: u32) -> u32
    ensures { result ≡ rest_of set }
{
    set & set.wrapping_sub(1)
}

// The set of the lowest truck of a set.
pub fn only_lowest(set: u32) -> u32
    ensures { result ≡ lowest_only set }
{
    set ^ rest(set)
}

// The set of truck i.
pub fn only(i: usize) -> u32
    ensures { result ≡ 2 ^ i % 2 ^ 32 }
{
    if i < 32 { 1 << i } else { 0 }
}

// Whether truck i is in a set.
pub fn holds(set: u32, i: usize) -> bool
    ensures { result ≡ bit set i }
{
    i < 32 && (set >> i) % 2 == 1
}

// A set with those of another, where they join.
pub fn union_where(set: u32, other: u32, joins: bool) -> u32
    ensures { result ≡ cond joins (bit_or set other) set }
{
    if joins { set | other } else { set }
}

// A set without those of another.
pub fn without(set: u32, other: u32) -> u32
    ensures { result ≡ without set other }
{
    set & !other
}

// The trucks of a set, from the lowest up.
#[derive(Drop)]
pub struct MembersOf {
    left: u32,
}

impl Iterator for MembersOf {
    type Item = usize;

    ghost remaining = { λ s. at_most s.left };

    ghost next_gives = { λ s r t. MatchOption r ((s.left ≡ 0) × (t.left ≡ 0)) (λ p. IsNext s.left p t.left) };

    fn next(&mut self) -> Option<usize> {
        if self.left == 0 {
            return None;
        }
        let p = lowest(self.left);
        self.left = rest(self.left);
        Some(p)
    }
}

// The trucks of a set, one by one, from the lowest up.
pub fn members_of(set: u32) -> MembersOf
    ensures { result.left ≡ set }
{
    MembersOf { left: set }
}
