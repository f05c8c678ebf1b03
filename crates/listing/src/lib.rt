// Makes the text for a book, which the program writes: a line a row, highest first, or one line that refuses.
#![tactic(auto)]

ghost use Rattle.std.specs.Prelude.{◌≡◌, ℕ, ◌+◌, ◌*◌, ◌≤◌, ◌<◌, length};
ghost use Rattle.std.proofs.lemmas.List.Edits.{sets};
ghost use Rattle.sums.specs.Columns.{at as Columns·at};
ghost use Rattle.licence.specs.Limit.{limit};
ghost use Rattle.intake.specs.Answer.{refusal_answer};
ghost use Rattle.listing.specs.Text.{decimal, line, lines, refused_line, line_most};
ghost use Rattle.listing.specs.Listed.{Listed, Stands, Counts, PutOrder};

use intake::{Refusal, Reply};

// No text is longer than this: a line a row, each of at most 22 bytes (`line_most`).
pub const LONGEST: usize = 22 * licence::LIMIT;

// Writes n in decimal from place `at` on, and answers where it ends. The digits come from the kit's buffer, since `write!` into lent bytes says nothing of
// which bytes are there afterwards.
fn put_decimal(text: &mut [u8], at: usize, n: u32) -> usize
    requires { at + length (decimal n) ≤ length text.old }
    ensures { (result ≡ at + length (decimal n)) × (text.new ≡ sets text.old at (decimal n)) }
{
    let mut buffer = itoa::Buffer::new();
    let digits = buffer.format(n).as_bytes();
    let end = at + digits.len();
    text[at..end].copy_from_slice(digits);
    end
}

// Writes a line from place `at` on, row, space and figure, and answers where it ends: the place goes beside the bytes, as in `put_decimal`.
fn put_line(text: &mut [u8], at: usize, row: u32, figure: u32) -> usize
    requires { at + line_most ≤ length text.old }
    ensures { (result ≡ at + length (line row figure)) × (text.new ≡ sets text.old at (line row figure)) }
{
    let space = put_decimal(text, at, row);
    text[space] = b' ';
    let stop = put_decimal(text, space + 1, figure);
    text[stop] = b'\n';
    stop + 1
}

// Writes a line for each row of the order, and answers where they end.
fn put_lines(order: &[u32], figures: &[u32], text: &mut [u8]) -> usize
    requires { ((p : ℕ) → p < length order.now → Columns·at order.now p < length figures.now) × (line_most * length order.now ≤ length text.old) }
    ensures { (result ≤ line_most * length order.now) × (result ≡ length (lines order.now figures.now)) × (text.new ≡ sets text.old 0 (lines order.now figures.now)) }
{
    let mut end: usize = 0;
    for &row in order {
        end = put_line(text, end, row, figures[row as usize]);
    }
    end
}

// Writes the line of a refusal, and answers where it ends.
fn put_refusal(text: &mut [u8], r: Refusal) -> usize
    requires { line_most ≤ length text.old }
    ensures { (result ≡ length (refused_line (refusal_answer r).number)) × (text.new ≡ sets text.old 0 (refused_line (refusal_answer r).number)) }
{
    text[..8].copy_from_slice(b"refused ");
    let stop = put_decimal(text, 8, Reply::from(r).number);
    text[stop] = b'\n';
    stop + 1
}

// Writes the lines of the order that is found for a book, and answers where they end.
fn put_order(book: &[u8], text: &mut [u8]) -> Result<usize, Refusal>
    requires { line_most * limit ≤ length text.old }
    ensures { PutOrder book.now text.old text.new result }
{
    // Lists of the limit's length: nothing is allocated.
    let mut words = [0u32; 6 * licence::LIMIT];
    let n = book::read(book, &mut words)? as usize;
    let words = &words[..6 * n];
    let mut order = [0u32; licence::LIMIT];
    finder::find(words, &mut order)?;
    let order = &order[..n];
    let mut figures = [0u32; licence::LIMIT];
    // An order that was found passes: what is answered is known.
    let _ = judge::judge(words, order, &mut figures);
    Ok(put_lines(order, &figures, text))
}

// Writes the text for a book, and answers where it ends. Into lent bytes: nothing is allocated.
pub fn list(book: &[u8], text: &mut [u8; LONGEST]) -> usize
    ensures counts { Counts result text.new }
    ensures stands { Stands (Listed book.now) text.old text.new result }
{
    match put_order(book, text) {
        Ok(end) => end,
        Err(refusal) => put_refusal(text, refusal),
    }
}
