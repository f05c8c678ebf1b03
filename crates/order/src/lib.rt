// The verdict on one band. The rows stand one behind the other along an order, and the band is a run of places.
#![tactic(auto)]

ghost use Rattle.std.specs.Prelude.{◌≡◌, ◌≤◌, ◌<◌, length};
ghost use Rattle.sums.specs.Terms.{lengths, allowed};
ghost use Rattle.sums.specs.Columns.{at};
ghost use Rattle.sums.specs.Masks.{run};
ghost use Rattle.order.specs.Sheet.{Lengths, EntriesIn, Placed, NumbersAre, RunOf, VerdictOf, Stretch, LongestIs};

use sums::{Run, Terms};

// Writes rows along an order.
pub fn align(rows: &[Terms], order: &[u32], along: &mut [Terms])
    requires { EntriesIn rows.now order.now × (length order.now ≤ length along.old) }
    ensures { Placed rows.now order.now along.new }
{
    for (p, row) in order.iter().enumerate() {
        along[p] = rows[*row as usize];
    }
}

// MAX, SUM, MIN and the least time allowed of a run.
#[derive(Clone, Copy)]
pub struct Numbers {
    pub longest: u32,
    pub sum: u32,
    pub shortest: u32,
    pub tightest: u32,
}

// The four numbers of a run.
fn numbers_of(rows: &[Terms], band: Run) -> Numbers
    requires { Lengths band.e (lengths rows.now) (allowed rows.now) × (band.s < band.e) }
    ensures { NumbersAre band.e (at (lengths rows.now)) (at (allowed rows.now)) (run band.s band.e) result }
{
    let mut longest: u32 = 0;
    let mut sum: u32 = 0;
    let mut shortest = u32::MAX;
    let mut tightest = u32::MAX;
    for row in &rows[band.s..band.e] {
        longest = longest.max(row.length);
        sum += row.length;
        shortest = shortest.min(row.length);
        tightest = tightest.min(row.allowed);
    }
    Numbers {
        longest,
        sum,
        shortest,
        tightest,
    }
}

// The figure of the band at these places, or none where it is late: the rows of the other places are above it, and `below` is the longest C
// below it.
pub fn judge_run(rows: &[Terms], band: Run, below: u32) -> Option<u32>
    requires { RunOf rows.now band.s band.e below }
    ensures { VerdictOf rows.now band.s band.e below result }
{
    let x = numbers_of(rows, band);
    if x.tightest < x.shortest {
        return None;
    }
    let base = below.max(x.longest) + (x.sum - x.shortest);
    let w = sums::least_around(base, rows, band, x.tightest - x.shortest)?;
    Some(w + x.shortest)
}

// The longest of `below` and of C at these places.
pub fn longest_of(rows: &[Terms], band: Run, below: u32) -> u32
    requires { Stretch (lengths rows.now) band.s band.e below }
    ensures { LongestIs (lengths rows.now) band.s band.e below result }
{
    let mut longest = below;
    for row in &rows[band.s..band.e] {
        longest = longest.max(row.length);
    }
    longest
}
