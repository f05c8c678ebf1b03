// Takes in a lent table: its checks, refusals 1 to 4, and the numbers of its rows, in places that the caller lends. And what the desk replies:
// the refusals, each with its number and what it carries.
#![tactic(auto)]

ghost use Rattle.std.specs.Prelude.{◌≡◌, ◌*◌, ◌≤◌, length};
ghost use Rattle.licence.specs.Limit.{limit};
ghost use Rattle.intake.specs.Answer.{answer, refusal_answer, said};
ghost use Rattle.intake.specs.Holds.{RowsRead, Counted, IntakeIs};

use sums::Terms;

// The refusals of document 01 and of the requests after it.
#[derive(Clone, Copy, Debug, PartialEq, Eq)]
pub enum Refusal {
    Ragged,
    TooMany,
    // Row, then the field's number: no `Field`, since `told_refusal_lem` speaks of any number.
    BadRow(u32, u32),
    NoRoom,
    OrderLength,
    // The position.
    OrderEntry(u32),
    // The position.
    SplitQueue(u32),
    // Unplaced bands, then bands tried.
    NoOrder(u32, u32),
    Closed,
    OtherEdition,
    NoSuchRow,
    EmptyBook,
    BookLength,
    // The row.
    BookOffset(u32),
    BadLedger,
}

// A reply as C has it: its number, and the numbers that it carries, in order, 0 where there are fewer.
#[repr(C)]
#[derive(Clone, Copy)]
pub struct Reply {
    pub number: u32,
    pub first: u32,
    pub second: u32,
}

// A reply with these numbers.
pub fn numbered(number: u32, first: u32, second: u32) -> Reply
    ensures { said result ≡ answer number first second }
{
    Reply {
        number,
        first,
        second,
    }
}

// A refusal's number, and what it carries.
impl From<Refusal> for Reply {
    ghost from_gives = { λ r reply. said reply ≡ refusal_answer r };

    fn from(r: Refusal) -> Reply {
        match r {
            Refusal::Ragged => numbered(1, 0, 0),
            Refusal::TooMany => numbered(2, 0, 0),
            Refusal::BadRow(row, field) => numbered(3, row, field),
            Refusal::NoRoom => numbered(4, 0, 0),
            Refusal::OrderLength => numbered(5, 0, 0),
            Refusal::OrderEntry(place) => numbered(6, place, 0),
            Refusal::SplitQueue(place) => numbered(7, place, 0),
            Refusal::NoOrder(unplaced, tried) => numbered(8, unplaced, tried),
            Refusal::Closed => numbered(9, 0, 0),
            Refusal::OtherEdition => numbered(10, 0, 0),
            Refusal::NoSuchRow => numbered(11, 0, 0),
            Refusal::EmptyBook => numbered(20, 0, 0),
            Refusal::BookLength => numbered(21, 0, 0),
            Refusal::BookOffset(row) => numbered(22, row, 0),
            Refusal::BadLedger => numbered(23, 0, 0),
        }
    }
}

// Reads as many rows as there are places; a row that can't be read ends the work at that point with its place. That there are at most `limit` is
// asked here, by the finder's `line_up` and by the judge's `Entries::read`, of another list each and once: a type would carry it nowhere.
fn read_rows(table: &[u32], rows: &mut [Terms]) -> Result<(), Refusal>
    requires { (length rows.old ≤ limit) × (length rows.old * 6 ≤ length table.now) }
    ensures { RowsRead table.now rows.new result }
{
    for (i, place) in rows.iter_mut().enumerate() {
        let reading = licence::read_row(table, i);
        // No `?` here: document 01 names `let .. else`.
        let Ok(row) = reading else {
            return Err(Refusal::BadRow(i as u32, licence::field_of(reading)));
        };
        *place = Terms {
            length: licence::bit_times(row.length),
            period: row.period,
            jitter: row.jitter,
            allowed: row.deadline - row.jitter,
            key: licence::band_key(row.queue, i as u32),
        };
    }
    Ok(())
}

// How many rows the words are, or that they are no table or too long a one.
pub fn count_rows(table: &[u32]) -> Result<usize, Refusal>
    ensures { Counted table.now result }
{
    if table.is_empty() || table.len() % 6 != 0 {
        return Err(Refusal::Ragged);
    }
    let n = table.len() / 6;
    if licence::LIMIT < n {
        return Err(Refusal::TooMany);
    }
    Ok(n)
}

// Takes in a table for an answer that has this much room: how many rows it has, and these in the first of the lent places. The count goes beside
// them, since a slice lent back would leave nothing to promise of the places.
pub fn take_in(table: &[u32], room: usize, places: &mut [Terms]) -> Result<usize, Refusal>
    requires { limit ≤ length places.old }
    ensures { IntakeIs table.now room places.new result }
{
    let n = count_rows(table)?;
    let rows = &mut places[..n];
    read_rows(table, rows)?;
    if room < n {
        return Err(Refusal::NoRoom);
    }
    Ok(n)
}
