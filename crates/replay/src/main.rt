// Reads a recording from standard input and prints its listing, or the line of its refusal. What fails in between is said on standard error.
#![tactic(auto)]

ghost use Rattle.std.specs.Prelude.{◌≡◌, ◌≤◌, length, take};
ghost use Rattle.listing.specs.Text.{printed, refusal_text};
ghost use Rattle.listing.specs.Program.{longest_listing, input_limit};
ghost use Rattle.replay.specs.Input.{bytes_read};

use std::io;
use std::io::{Print, Read};

// Reads until the buffer is full, the input ends, or a read fails: a `while`, since a read may give any number of bytes. The buffer has the bytes that the program
// reads at most.
fn read_input<R: Read>(input: &mut R, buf: &mut [u8]) -> io::Result<usize>
    requires { length buf.old ≡ input_limit }
    ensures { bytes_read result ≤ length buf.new }
{
    let mut n = 0;
    while n < buf.len() {
        let more = input.read(&mut buf[n..])?;
        if more == 0 {
            return Ok(n);
        }
        n += more;
    }
    Ok(n)
}

fn main(rt: HostRuntime) {
    // One byte more than the largest recording has: a longer input is refused by its first bytes as it would be by all (`printed_cut` in crate listing).
    let mut buf = [0u8; 56019];
    let mut stdin = rt.stdin();
    let input = read_input(&mut stdin, &mut buf);
    let out = rt.stdout();
    let err = rt.stderr();
    match input {
        Err(_) => complain(&err, b"replay: standard input could not be read\n"),
        Ok(n) => replay(&out, &err, &buf[..n]),
    }
}

// Puts what is printed for a recording into a buffer that is long enough, and answers its length: the listing, or the line of the refusal.
fn text_of(s: &[u8], text: &mut [u8]) -> usize
    requires { longest_listing ≤ length text.old }
    ensures within { result ≤ length text.new }
    ensures printed { take result text.new ≡ printed s.now }
{
    match listing::list(s, text) {
        Ok(k) => k,
        Err(r) => line_of(r, text),
    }
}

// Puts the line of a refusal.
fn line_of(r: refusals::Refusal, text: &mut [u8]) -> usize
    requires { length (refusal_text r) ≤ length text.old }
    ensures within { result ≤ length text.new }
    ensures line { take result text.new ≡ refusal_text r }
{
    match listing::refusal_line(r, text) {
        Ok(k) => k,
        // A buffer of this size is never refused (`list_suffices`, `list_room` in crate listing).
        Err(_short) => unreachable!(),
    }
}

fn replay(out: &impl Print, err: &impl Print, s: &[u8]) {
    let mut text = [0u8; 1761];
    let k = text_of(s, &mut text);
    print(out, err, &text[..k]);
}

fn print(out: &impl Print, err: &impl Print, text: &[u8]) {
    match out.write_all(text) {
        Ok(()) => {}
        Err(_) => complain(err, b"replay: standard output could not be written\n"),
    }
}

fn complain(err: &impl Print, text: &[u8]) {
    // There is nowhere to say that this failed.
    let _ = err.write_all(text);
}
