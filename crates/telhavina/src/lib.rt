// What C and Rust call. Nothing is decided here: each function hands its lists on, and gives the answer its number.
#![tactic(auto)]

ghost use Rattle.std.specs.Prelude.{◌≡◌};
ghost use Rattle.intake.specs.Answer.{said, told_as};
ghost use Rattle.book.specs.Replies.{BookRead, BookWritten};
ghost use Rattle.judge.specs.Judged.{judgement_answer, Judged};
ghost use Rattle.finder.specs.Searched.{Searched};
ghost use Rattle.desk.specs.Ledger.{fresh};
ghost use Rattle.desk.specs.Replies.{Claimed, Withdrawn};

use desk::Ledger;
use intake::{Refusal, Reply};

// The reply to a call: its own number, which C knows it by, with what it tells, or a refusal's. Not a `From`: `Result` and `Reply` are of other crates.
fn told(number: u32, answer: Result<u32, Refusal>) -> Reply
    ensures { said result ≡ told_as number answer }
{
    match answer {
        Ok(x) => intake::numbered(number, x, 0),
        Err(refusal) => Reply::from(refusal),
    }
}

// The reply to a judgement, whose two numbers C knows too.
fn judgement_reply(judgement: Result<Option<u32>, Refusal>) -> Reply
    ensures { said result ≡ judgement_answer judgement }
{
    match judgement {
        Ok(None) => intake::numbered(100, 0, 0),
        Ok(Some(place)) => intake::numbered(101, place, 0),
        Err(refusal) => Reply::from(refusal),
    }
}

// Judges an order: see include/telhavina.h.
#[unsafe(no_mangle)]
pub extern "C" fn telhavina_judge(table: &[u32], order: &[u32], figures: &mut [u32]) -> Reply
    ensures { Judged table.now order.now figures.old figures.new (said result) }
{
    judgement_reply(judge::judge(table, order, figures))
}

// Finds an order: see include/telhavina.h.
#[unsafe(no_mangle)]
pub extern "C" fn telhavina_find(table: &[u32], order: &mut [u32]) -> Reply
    ensures { Searched table.now order.old order.new (said result) }
{
    told(102, finder::find(table, order))
}

// Reads a book: see include/telhavina.h.
#[unsafe(no_mangle)]
pub extern "C" fn telhavina_book_read(book: &[u8], words: &mut [u32]) -> Reply
    ensures { BookRead book.now words.old words.new (said result) }
{
    told(103, book::read(book, words))
}

// Writes a book: see include/telhavina.h.
#[unsafe(no_mangle)]
pub extern "C" fn telhavina_book_write(words: &[u32], book: &mut [u8]) -> Reply
    ensures { BookWritten words.now book.old book.new (said result) }
{
    told(104, book::write(words, book))
}

// A fresh ledger: see include/telhavina.h.
#[unsafe(no_mangle)]
pub extern "C" fn telhavina_ledger_fresh() -> Ledger
    ensures { result ≡ fresh }
{
    desk::fresh()
}

// A claim at the desk: see include/telhavina.h.
#[unsafe(no_mangle)]
pub extern "C" fn telhavina_claim(ledger: &mut Ledger, row: &[u32], seen: u32) -> Reply
    ensures { Claimed ledger.old row.now seen ledger.new (said result) }
{
    told(105, desk::claim(ledger, row, seen))
}

// A withdrawal at the desk: see include/telhavina.h.
#[unsafe(no_mangle)]
pub extern "C" fn telhavina_withdraw(ledger: &mut Ledger, row: u32, seen: u32) -> Reply
    ensures { Withdrawn ledger.old row seen ledger.new (said result) }
{
    told(106, desk::withdraw(ledger, row, seen))
}
