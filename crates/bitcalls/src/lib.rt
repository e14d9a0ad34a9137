// The bit reader for tests in other languages. It is no part of the library that is handed out.
#![tactic(auto)]

ghost use Rattle.std.specs.Prelude.{◌≡◌};
ghost use Rattle.bitreader.specs.Bits.{bit_at, num_at, row_at, bits_read, place_after};

use bitreader::Reader;

// Reads k bits, at most 32, and tells the place of the bit after them.
#[unsafe(no_mangle)]
pub extern "C" fn bitcalls_take(bytes: &[u8], at: usize, k: usize, next: &mut usize) -> u32
    ensures { (result ≡ num_at (bit_at bytes.now) at (bits_read k)) × (next.new ≡ place_after at k) }
{
    let mut r = Reader::new(bytes, at);
    let value = r.take(k);
    *next = r.at;
    value
}

// The same bits as a word of plain form.
#[unsafe(no_mangle)]
pub extern "C" fn bitcalls_row(bytes: &[u8], at: usize, k: usize) -> u32
    ensures { result ≡ row_at (bit_at bytes.now) at (bits_read k) }
{
    bitreader::row_at(bytes, at, k)
}
