// Finds a priority order. Rows, by their places in the table, stand in one list, `made`: before place `top` those not placed, band by band, so
// that the runs of one key there are the bands to try in their order; from there on those placed, highest first. The rows stand along it, so
// that a verdict is on a run of places and looks for nothing.
// Its lists have the limit's length and stand on the stack: nothing is allocated.
#![tactic(auto)]

ghost use Rattle.std.specs.Prelude.{◌≡◌, ◌++◌, ◌+◌, ◌≤◌, ◌<◌, length, take};
ghost use Rattle.sums.specs.Columns.{at};
ghost use Rattle.sums.specs.Terms.{keys};
ghost use Rattle.licence.specs.Limit.{limit};
ghost use Rattle.order.specs.Sheet.{sheet_of, Placed};
ghost use Rattle.intake.specs.Held.{Keyed, HeldRows};
ghost use Rattle.finder.specs.Placing.{rising};
ghost use Rattle.finder.specs.Searched.{finding_answer, Answered, Searched};
ghost use Rattle.finder.specs.Steps.{own_of, Puts, by_band, first_rows, RunEnds, Turned};

use intake::Refusal;
use sums::{Run, Terms};

// Writes the rows of the band of row k, its first, from place `end` on, and answers where they end.
fn put_band(rows: &[Terms], k: usize, made: &mut [u32], end: usize) -> usize
    requires { Puts (length rows.now) (keys rows.now) k made.old end }
    ensures { (take result made.new ≡ take end made.old ++ rising (length rows.now) (own_of (keys rows.now) (at (keys rows.now) k))) × (result ≤ length rows.now) }
{
    // A place in a lent list, as there is no Vec to push to; rows by number, since the number is what is written.
    let mut next = end;
    for i in k..rows.len() {
        if rows[i].key == rows[k].key {
            made[next] = i as u32;
            next += 1;
        }
    }
    next
}

// Writes the rows band by band: the bands in rising order of their first row, the rows of each rising.
fn line_up(rows: &[Terms], made: &mut [u32])
    requires { (length rows.now ≤ limit) × Keyed (length rows.now) (keys rows.now) × (length rows.now ≤ length made.old) }
    ensures { take (length rows.now) made.new ≡ by_band (length rows.now) (at (keys rows.now)) (first_rows (length rows.now) (at (keys rows.now))) }
{
    let mut used = [false; licence::KEYS];
    let mut end: usize = 0;
    for (k, row) in rows.iter().enumerate() {
        let band = row.key as usize;
        if !used[band] {
            used[band] = true;
            end = put_band(rows, k, made, end);
        }
    }
}

// Where the run of one key that starts at place s ends.
fn run_end(along: &[Terms], s: usize) -> usize
    requires { s < length along.now }
    ensures { RunEnds (keys along.now) s (length along.now) result }
{
    let own = along[s].key;
    match along[s..].iter().position(|row| row.key != own) {
        Some(run) => s + run,
        None => along.len(),
    }
}

// Puts a run behind the places that follow it, which close up. They go by way of spare places, so that no copy overlaps what it copies:
// `rotate_left` would ask the C library for memmove, and include/telhavina.h promises that memcpy and memset are enough.
fn turn<T: Copy>(list: &mut [T], band: Run, spare: &mut [T])
    requires { (band.e ≤ length list.old) × (length list.old ≤ length spare.old) }
    ensures { Turned band.s band.e (length list.old) list.old list.new }
{
    let closer = list.len() - band.e;
    // Behind them already, as at the highest place each time.
    if closer == 0 {
        return;
    }
    let moved = list.len() - band.s;
    spare[..closer].copy_from_slice(&list[band.e..]);
    spare[closer..moved].copy_from_slice(&list[band.s..band.e]);
    list[band.s..].copy_from_slice(&spare[..moved]);
}

// Finds an order over rows, and answers how many bands were tried: fills the lowest place first. `below` is the longest C of the rows placed.
// The places of the rows are lent to be overwritten: once the rows stand along `made`, they are spare. No type carries `HeldRows`: see `fill` of the
// judge.
fn find_order(rows: &mut [Terms], order: &mut [u32]) -> Result<u32, Refusal>
    requires { HeldRows rows.old × (length rows.old ≤ length order.old) }
    ensures { Answered (sheet_of rows.old) order.old order.new (finding_answer result) }
{
    let n = rows.len();
    // Two lists that turn together, since a verdict takes a slice of rows alone.
    let mut made = [0u32; licence::LIMIT];
    line_up(rows, &mut made);
    let mut along = [sums::BLANK; licence::LIMIT];
    order::align(rows, &made[..n], &mut along);
    let mut spare = [0u32; licence::LIMIT];
    let mut below: u32 = 0;
    let mut top = n;
    let mut tried: u32 = 0;
    // Two `while` loops, since they step from run to run; document 01 names the outer one's label.
    'places: while 0 < top {
        let mut bands: u32 = 0;
        let mut s: usize = 0;
        while s < top {
            let band = Run {
                s,
                e: run_end(&along[..top], s),
            };
            bands += 1;
            let passes = order::judge_run(&along[..top], band, below).is_some();
            if passes {
                tried += bands;
                below = order::longest_of(&along, band, below);
                turn(&mut made[..top], band, &mut spare);
                turn(&mut along[..top], band, rows);
                top -= band.e - band.s;
                continue 'places;
            }
            s = band.e;
        }
        return Err(Refusal::NoOrder(bands, tried + bands));
    }
    order[..n].copy_from_slice(&made[..n]);
    Ok(tried)
}

// Finds an order for any table: how many bands were tried, and the order in the first n places of the lent list.
pub fn find(table: &[u32], order: &mut [u32]) -> Result<u32, Refusal>
    ensures { Searched table.now order.old order.new (finding_answer result) }
{
    let mut places = [sums::BLANK; licence::LIMIT];
    let n = intake::take_in(table, order.len(), &mut places)?;
    find_order(&mut places[..n], order)
}
