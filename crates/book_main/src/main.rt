// Reads one book from standard input, and writes what `listing::list` makes of it. One byte more than the longest book decides
// (`first_bytes_listed`), so no more is read. An input that cannot be read is taken to end there, and nothing is said where the text
// cannot be written: the request has no words for either.
#![tactic(auto)]

ghost use Rattle.std.specs.Prelude.{◌≤◌, length};

use std::io::{Read, Write};

// Reads until the list is full, or the input ends or cannot be read, and answers how many bytes were read: std's `read_exact` does not say that of
// an input that ends early.
fn read_full<R: Read>(input: &mut R, list: &mut [u8]) -> usize
    ensures { result ≤ length list.new }
{
    let mut end: usize = 0;
    while end < list.len() {
        match input.read(&mut list[end..]) {
            Ok(n) if 0 < n => end += n,
            _ => return end,
        }
    }
    end
}

fn main(rt: HostRuntime) {
    let mut book = book::buffer();
    let n = read_full(&mut rt.stdin(), &mut book);
    let mut text = [0u8; listing::LONGEST];
    let end = listing::list(&book[..n], &mut text);
    let _ = rt.stdout().write_all(&text[..end]);
}
