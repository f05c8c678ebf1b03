// The licence book on disk: a reader and a writer, over lent bytes and words.
#![tactic(auto)]

ghost use Rattle.std.specs.Prelude.{◌≡◌, ◌+◌, ◌*◌, ◌≤◌, length};
ghost use Rattle.std.proofs.lemmas.List.Edits.{sets};
ghost use Rattle.licence.specs.Limit.{limit};
ghost use Rattle.book.specs.Book.{offset, size, offsets, bodies, words_in};
ghost use Rattle.book.specs.Replies.{reading_answer, writing_answer, BookRead, BookWritten};

use intake::Refusal;

// The bytes of the longest book.
pub const LONGEST: usize = 2 + 28 * licence::LIMIT;

// Room for the longest book and one byte more: these decide (`first_bytes_decide`). An array, since nothing is allocated.
pub fn buffer() -> [u8; LONGEST + 1]
    ensures { length result ≡ size limit + 1 }
{
    [0; LONGEST + 1]
}

// Writes these bytes from place `at` on.
fn put(book: &mut [u8], at: usize, bytes: &[u8])
    requires { at + length bytes.now ≤ length book.old }
    ensures { book.new ≡ sets book.old at bytes.now }
{
    book[at..at + bytes.len()].copy_from_slice(bytes);
}

// Where the body of row i of n starts. A book's rows are counted in two bytes, so no sum wraps; here and below n is that count, which is read before
// there is anything to measure.
fn start_of(n: u16, i: u16) -> u32
    ensures { result ≡ offset n i }
{
    let (n, i) = (u32::from(n), u32::from(i));
    2 + 4 * n + 24 * i
}

// Reads the words of a book of n rows.
fn get_bodies(book: &[u8], n: u16, words: &mut [u32])
    requires { (length book.now ≡ size n) × (6 * n ≤ length words.old) }
    ensures { words.new ≡ sets words.old 0 (words_in book.now n) }
{
    let (bodies, _) = book[start_of(n, 0) as usize..].as_chunks::<4>();
    for (m, bytes) in bodies.iter().enumerate() {
        words[m] = u32::from_le_bytes(*bytes);
    }
}

// Reads a book: its number of rows, and its words in the first places of the lent list.
pub fn read(book: &[u8], words: &mut [u32]) -> Result<u32, Refusal>
    ensures { BookRead book.now words.old words.new (reading_answer result) }
{
    if book.len() < 2 {
        return Err(Refusal::EmptyBook);
    }
    let n = u16::from_be_bytes([book[0], book[1]]);
    if n == 0 {
        return Err(Refusal::EmptyBook);
    }
    if licence::LIMIT < usize::from(n) {
        return Err(Refusal::TooMany);
    }
    if book.len() != start_of(n, n) as usize {
        return Err(Refusal::BookLength);
    }
    // Four bytes each: the first n say where the rows start, the others are words.
    let (starts, _) = book[2..].as_chunks::<4>();
    for i in 0..n {
        if u32::from_be_bytes(starts[usize::from(i)]) != start_of(n, i) {
            return Err(Refusal::BookOffset(u32::from(i)));
        }
    }
    if words.len() < 6 * usize::from(n) {
        return Err(Refusal::NoRoom);
    }
    get_bodies(book, n, words);
    Ok(u32::from(n))
}

// Writes where each of n rows starts.
fn put_offsets(book: &mut [u8], n: u16)
    requires { offset n n ≤ length book.old }
    ensures { book.new ≡ sets book.old 2 (offsets n) }
{
    for i in 0..n {
        put(book, 2 + 4 * usize::from(i), &start_of(n, i).to_be_bytes());
    }
}

// Writes the words from place `start` on.
fn put_bodies(words: &[u32], book: &mut [u8], start: usize)
    requires { start + 4 * length words.now ≤ length book.old }
    ensures { book.new ≡ sets book.old start (bodies words.now) }
{
    for (m, word) in words.iter().enumerate() {
        put(book, start + 4 * m, &word.to_le_bytes());
    }
}

// Writes a book: its number of bytes, and the book in the first places of the lent list.
pub fn write(words: &[u32], book: &mut [u8]) -> Result<u32, Refusal>
    ensures { BookWritten words.now book.old book.new (writing_answer result) }
{
    let n = intake::count_rows(words)? as u16;
    let size = start_of(n, n);
    if book.len() < size as usize {
        return Err(Refusal::NoRoom);
    }
    put(book, 0, &n.to_be_bytes());
    put_offsets(book, n);
    put_bodies(words, book, start_of(n, 0) as usize);
    Ok(size)
}
