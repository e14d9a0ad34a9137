// Numbers of up to 32 bits at any place of a slice of bytes, by a reader and on plain parameters.
#![tactic(auto)]

ghost use Rattle.std.specs.Prelude.{◌≡◌, ◌+◌, ◌*◌, ◌-◌, ◌<◌, ◌≤◌, ◌^◌, ◌/◌, ◌%◌, get_or, length};
ghost use Rattle.bitreader.specs.Bits.{bit_at, num_at, row_at, bits_read, mirrored, moved_by};
ghost use Rattle.bitreader.specs.Ways.{bytes_from, EightRemain, by_eight, by_bytes};

// The byte at a place; past the end it is 0.
fn byte_at(s: &[u8], i: usize) -> u64
    ensures { result ≡ get_or s.now i 0 }
{
    u64::from(s.get(i).copied().unwrap_or(0))
}

// The number that m bytes make.
fn bytes_at(s: &[u8], b: usize, m: usize) -> u64
    requires { (m ≤ 5) × (b < 2 ^ 61) }
    ensures { result ≡ bytes_from s.now b m }
{
    let mut v: u64 = 0;
    for i in 0..m {
        v = v * 256 + byte_at(s, b + i);
    }
    v
}

// The lowest k digits of v.
pub fn low_bits(v: u64, k: usize) -> u64
    ensures { result ≡ v % 2 ^ k }
{
    if k < 64 { v % (1 << k) } else { v }
}

// The number of eight bytes that are there: one load wherever this is inlined.
fn eight_at(s: &[u8], b: usize) -> u64
    requires { b + 8 ≤ length s.now }
    ensures { result ≡ bytes_from s.now b 8 }
{
    u64::from_be_bytes([
        s[b],
        s[b + 1],
        s[b + 2],
        s[b + 3],
        s[b + 4],
        s[b + 5],
        s[b + 6],
        s[b + 7],
    ])
}

// 32 bits out of a word of eight bytes. Shifted to the right: to the left the compiler would load five bytes in two parts.
fn by_eight(s: &[u8], at: usize) -> u64
    requires { EightRemain s.now at }
    ensures { result ≡ by_eight s.now at 32 }
{
    (eight_at(s, at / 8) >> (32 - at % 8)) % 4294967296
}

// 32 bits out of the single bytes that hold them.
fn by_bytes(s: &[u8], at: usize) -> u64
    ensures { result ≡ by_bytes s.now at 32 }
{
    let m = (at % 8 + 32 + 7) / 8;
    (bytes_at(s, at / 8, m) >> (8 * m - at % 8 - 32)) % 4294967296
}

// The 32 bits from a place on, by eight bytes where eight remain. The rare way is asked for first, which keeps it out of the loops that read.
fn bits_32(s: &[u8], at: usize) -> u64
    ensures { result ≡ num_at (bit_at s.now) at 32 }
{
    if s.len() < at / 8 + 8 {
        return by_bytes(s, at);
    }
    by_eight(s, at)
}

// The bit at a place, out of its byte; past the end it is 0.
fn bit_at(s: &[u8], at: usize) -> u32
    ensures { result ≡ bit_at s.now at }
{
    let b = at / 8;
    if s.len() <= b {
        return 0;
    }
    ((s[b] as u32) << (at % 8)) / 128 % 2
}

// The leaf that gathers bits: everything reads through it. Always 32 bits are gathered, of which the first w are kept:
// one width keeps it short enough for the compiler to inline.
pub fn bits_at(s: &[u8], at: usize, k: usize) -> u32
    ensures { result ≡ num_at (bit_at s.now) at (bits_read k) }
{
    let w = k.min(32);
    // A search for single bits is twice as fast by single bytes.
    if w == 1 {
        return bit_at(s, at);
    }
    (bits_32(s, at) >> (32 - w)) as u32
}

// The lowest k digits of x, at most 32, in reverse: the one turns into the other of the two numbers that k bits make.
pub fn mirror(x: u32, k: usize) -> u32
    ensures { result ≡ mirrored (bits_read k) x }
{
    let w = k.min(32);
    let all = x.reverse_bits() as u64;
    (all >> (32 - w)) as u32
}

#[derive(Drop)]
pub struct Reader<'a> {
    pub bytes: &'a [u8],
    pub at: usize,
}

impl<'a> Reader<'a> {
    pub fn new(bytes: &'a [u8], at: usize) -> Reader<'a>
        ensures { (result.bytes ≡ bytes.entry) × (result.at ≡ at) }
    {
        Reader { bytes, at }
    }

    // Reads k bits, at most 32, and moves on past them.
    pub fn take(&mut self, k: usize) -> u32
        ensures { (result ≡ num_at (bit_at self.old.bytes.now) self.old.at (bits_read k)) × (self.new ≡ moved_by self.old k) }
    {
        let v = bits_at(self.bytes, self.at, k);
        self.at = self.at.saturating_add(k.min(32));
        v
    }
}

// A reader in a local: what is read at a place of its own, on plain parameters, is read by this one.
pub fn read_at(s: &[u8], at: usize, k: usize) -> u32
    ensures { result
        ≡ num_at (bit_at s.now) at (bits_read k) }
{
    Reader::new(s, at).take(k)
}

// The same bits as a word of plain form, out of the word of 32 bits: a fixed number of them is faster to gather and to turn.
pub fn row_at(s: &[u8], at: usize, k: usize) -> u32
    ensures { result ≡ row_at (bit_at s.now) at (bits_read k) }
{
    let all = mirror(read_at(s, at, 32), 32) as u64;
    low_bits(all, k.min(32)) as u32
}
