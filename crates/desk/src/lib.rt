// The claim desk: a ledger of granted rows with an edition, lent to the call and changed in place. A claim brings one row, a withdrawal names
// one, and both bring the edition that their sender saw. The work is done by value; `claim` and `withdraw` lend it the ledger.
#![tactic(auto)]

ghost use Rattle.std.specs.Prelude.{◌≡◌, ◌++◌, ◌+◌, ◌-◌, ◌≤◌, length, take, drop};
ghost use Rattle.std.proofs.Math.Seq.{slice};
ghost use Rattle.desk.specs.Ledger.{fresh, unfit, edition_refusal, claim_refusal, withdrawal_refusal};
ghost use Rattle.desk.specs.Replies.{decision_answer, CheckIs, ledger_after, edition_after, Claimed, Withdrawn};

use intake::Refusal;

// The words of as many rows as a ledger may hold.
pub const WORDS: usize = licence::LIMIT * 6;

// The edition at which a ledger is closed.
const LAST: u32 = u32::MAX;

// The rows held, one behind the other from the first word on; how many; and the number of changes so far. Words behind the rows held mean nothing. The
// count stands beside the words because C lends this struct.
#[repr(C)]
#[derive(Clone, Copy)]
pub struct Ledger {
    pub words: [u32; WORDS],
    pub held: u32,
    pub edition: u32,
}

impl Ledger {
    // Whether the rows held are too many, or one of them can't be read.
    fn unfit(&self) -> bool
        ensures { result ≡ unfit self.now.words self.now.held }
    {
        let n = self.held as usize;
        if licence::LIMIT < n {
            return true;
        }
        for i in 0..n {
            if licence::read_row(&self.words, i).is_err() {
                return true;
            }
        }
        false
    }

    // Whether the ledger is closed, or its edition not the one seen.
    fn check_edition(&self, seen: u32) -> Result<(), Refusal>
        ensures { CheckIs (edition_refusal self.now.edition seen) result }
    {
        if self.edition == LAST {
            return Err(Refusal::Closed);
        }
        if seen != self.edition {
            return Err(Refusal::OtherEdition);
        }
        Ok(())
    }

    // The checks of a claim, but for the order.
    fn check_claim(&self, row: &[u32], seen: u32) -> Result<(), Refusal>
        ensures { CheckIs (claim_refusal self.now row.now seen) result }
    {
        if self.unfit() {
            return Err(Refusal::BadLedger);
        }
        if row.len() != 6 {
            return Err(Refusal::Ragged);
        }
        if let Err(field) = licence::read_row(row, 0) {
            return Err(Refusal::BadRow(0, u32::from(field)));
        }
        self.check_edition(seen)?;
        if self.held as usize == licence::LIMIT {
            return Err(Refusal::TooMany);
        }
        Ok(())
    }

    // The checks of a withdrawal.
    fn check_withdrawal(&self, row: u32, seen: u32) -> Result<(), Refusal>
        ensures { CheckIs (withdrawal_refusal self.now row seen) result }
    {
        if self.unfit() {
            return Err(Refusal::BadLedger);
        }
        self.check_edition(seen)?;
        if self.held <= row {
            return Err(Refusal::NoSuchRow);
        }
        Ok(())
    }
}

// A ledger that holds nothing yet.
pub fn fresh() -> Ledger
    ensures { result ≡ fresh }
{
    Ledger {
        words: [0u32; WORDS],
        held: 0,
        edition: 0,
    }
}

// Lays a row at this place, behind those held.
fn add_row(words: &mut [u32], end: usize, row: &[u32])
    requires { (length row.now ≡ 6) × (end + 6 ≤ length words.old) }
    ensures { words.new ≡ take end words.old ++ row.now ++ drop (end + 6) words.old }
{
    words[end..end + 6].copy_from_slice(row);
}

// Lays the words behind a row, up to where the rows held end, over that row: a stretch of the words, which are lent whole.
fn close_gap(words: &mut [u32], gap: usize, end: usize)
    requires { (gap + 6 ≤ end) × (end ≤ length words.old) }
    ensures { words.new ≡ take gap words.old ++ slice (gap + 6) end words.old ++ drop (end - 6) words.old }
{
    words.copy_within(gap + 6..end, gap);
}

// A claim, by value: the ledger with the row added, or why it stays as it is.
pub fn claim_on(l: Ledger, row: &[u32], seen: u32) -> Result<Ledger, Refusal>
    ensures { Claimed l row.now seen (ledger_after l result) (decision_answer 105 (edition_after result)) }
{
    l.check_claim(row, seen)?;
    let mut words = l.words;
    let end = l.held as usize * 6;
    add_row(&mut words, end, row);
    // Of the limit's length: nothing is allocated.
    let mut order = [0u32; licence::LIMIT];
    finder::find(&words[..end + 6], &mut order)?;
    let edition = l.edition + 1;
    Ok(Ledger {
        words,
        held: l.held + 1,
        edition,
    })
}

// A withdrawal, by value: the ledger with the row taken out, or why it stays as it is.
pub fn withdraw_on(l: Ledger, row: u32, seen: u32) -> Result<Ledger, Refusal>
    ensures { Withdrawn l row seen (ledger_after l result) (decision_answer 106 (edition_after result)) }
{
    l.check_withdrawal(row, seen)?;
    let mut words = l.words;
    let gap = row as usize * 6;
    let end = l.held as usize * 6;
    close_gap(&mut words, gap, end);
    Ok(Ledger {
        words,
        held: l.held - 1,
        edition: l.edition + 1,
    })
}

// A claim: the ledger is lent, and changed in place. The answer is the new edition. Row and edition seen are two arguments, as C gives them.
pub fn claim(ledger: &mut Ledger, row: &[u32], seen: u32) -> Result<u32, Refusal>
    ensures { Claimed ledger.old row.now seen ledger.new (decision_answer 105 result) }
{
    *ledger = claim_on(*ledger, row, seen)?;
    Ok(ledger.edition)
}

// A withdrawal: the ledger is lent, and changed in place. The answer is the new edition.
pub fn withdraw(ledger: &mut Ledger, row: u32, seen: u32) -> Result<u32, Refusal>
    ensures { Withdrawn ledger.old row seen ledger.new (decision_answer 106 result) }
{
    *ledger = withdraw_on(*ledger, row, seen)?;
    Ok(ledger.edition)
}
