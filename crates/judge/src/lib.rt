// Judges a given priority order. Its lists have the limit's length and stand on the stack: nothing is allocated.
#![tactic(auto, unfolding(licence::specs::Limit::limit))]

ghost use Rattle.std.specs.Prelude.{◌≡◌, ◌≤◌, ◌<◌, length, IfOk, IfErr};
ghost use Rattle.sums.specs.Masks.{lowest};
ghost use Rattle.sums.specs.Columns.{at};
ghost use Rattle.sums.specs.Terms.{keys};
ghost use Rattle.licence.specs.Limit.{limit};
ghost use Rattle.order.specs.Orders.{resumes, Together};
ghost use Rattle.order.specs.Sheet.{sheet_of};
ghost use Rattle.intake.specs.Held.{Keyed, HeldRows};
ghost use Rattle.judge.specs.Judged.{judgement_answer, Written, Judged};
ghost use Rattle.judge.specs.Walk.{place_of, InRange, NoneBad, FirstBad, zero_at, RunStarts, PutFor, LaidRows, FilledRows, OrderJudged};

use intake::Refusal;
use sums::{Run, Terms};

// Where the last run of one key starts.
fn run_start(along: &[Terms]) -> usize
    requires { 0 < length along.now }
    ensures { RunStarts (keys along.now) (length along.now) result }
{
    for s in (1..along.len()).rev() {
        if along[s - 1].key != along[s].key {
            return s;
        }
    }
    0
}

// An order of rows: each of its entries is one, and none stands twice.
#[derive(Drop)]
struct Entries<'a> {
    order: &'a [u32],
    ghost in_range: { InRange (length order.now) order.now },
    ghost distinct: { NoneBad order.now },
}

impl<'a> Entries<'a> {
    // The entries of an order, or its first that is out of range or a repeat.
    fn read(order: &'a [u32]) -> Result<Entries<'a>, Refusal>
        requires { length order.now ≤ limit }
        ensures same { IfOk result (λ entries. entries.order.now ≡ order.now) }
        ensures first { IfErr result (λ refused. FirstBad order.now refused) }
    {
        let mut used = [false; licence::LIMIT];
        for (p, &entry) in order.iter().enumerate() {
            let row = entry as usize;
            if order.len() <= row || used[row] {
                return Err(Refusal::OrderEntry(p as u32));
            }
            used[row] = true;
        }
        Ok(Entries { order })
    }

    // The first position that resumes a FIFO already left: its key was used, and not by the place just before.
    fn first_split(&self, rows: &[Terms]) -> Option<u32>
        requires { Keyed (length self.now.order.now) (keys rows.now) }
        ensures { place_of result ≡ lowest (length self.now.order.now) (resumes (at (keys rows.now)) self.now.order.now) }
    {
        let mut used = [false; licence::KEYS];
        // The key of the place before. At the first place no flag is up, so any will do.
        let mut last: u32 = 0;
        for (p, &row) in self.order.iter().enumerate() {
            let k = rows[row as usize].key;
            if used[k as usize] && k != last {
                return Some(p as u32);
            }
            used[k as usize] = true;
            last = k;
        }
        None
    }

    // Writes what stands for the rows of a run. That the figures have room is asked by each function that touches them: it joins two lists, and
    // neither's type can carry it.
    fn put_for(&self, band: Run, figure: u32, figures: &mut [u32])
        requires { (band.e ≤ length self.now.order.now) × (length self.now.order.now ≤ length figures.old) }
        ensures { PutFor self.now.order.now band.s band.e figure figures.old figures.new }
    {
        for &row in &self.order[band.s..band.e] {
            figures[row as usize] = figure;
        }
    }

    // Writes what stands for each row, from the lowest run up: the places before a run are above it. A late run's rows get 0, as C has it. The rows
    // along the order are a list of their own, since a verdict takes a slice of rows alone.
    fn fill_runs(&self, along: &[Terms], figures: &mut [u32])
        requires { LaidRows along.now × (length along.now ≡ length self.now.order.now) × (length along.now ≤ length figures.old) }
        ensures { FilledRows along.now self.now.order.now figures.old figures.new 0 }
    {
        let mut below: u32 = 0;
        let mut e = along.len();
        // A `while`, since a step is a whole run, whose start is found on the way.
        while 0 < e {
            let band = Run {
                s: run_start(&along[..e]),
                e,
            };
            let figure = order::judge_run(&along[..e], band, below).unwrap_or(0);
            self.put_for(band, figure, figures);
            below = order::longest_of(along, band, below);
            e = band.s;
        }
    }

    // Writes what stands for each row, with the rows arranged along the order. `HeldRows` is asked here, below and in the finder: a type that
    // carried it would have one field, and be opened in each.
    fn fill(&self, rows: &[Terms], figures: &mut [u32])
        requires { HeldRows rows.now × (length self.now.order.now ≡ length rows.now) × Together (sheet_of rows.now) self.now.order.now × (length rows.now ≤ length figures.old) }
        ensures { Written (sheet_of rows.now) self.now.order.now figures.old figures.new }
    {
        let mut places = [sums::BLANK; licence::LIMIT];
        let along = &mut places[..self.order.len()];
        order::align(rows, self.order, along);
        self.fill_runs(along, figures);
    }

    // The first position whose row has the figure 0.
    fn first_zero(&self, figures: &[u32]) -> Option<u32>
        requires { length self.now.order.now ≤ length figures.now }
        ensures { place_of result ≡ lowest (length self.now.order.now) (zero_at figures.now self.now.order.now) }
    {
        for (p, &row) in self.order.iter().enumerate() {
            if figures[row as usize] == 0 {
                return Some(p as u32);
            }
        }
        None
    }
}

// Judges the order of these rows: refusals 5 to 7, and else the first late position.
fn judge_order(rows: &[Terms], order: &[u32], figures: &mut [u32]) -> Result<Option<u32>, Refusal>
    requires { HeldRows rows.now × (length rows.now ≤ length figures.old) }
    ensures { OrderJudged (sheet_of rows.now) order.now figures.old figures.new (judgement_answer result) }
{
    if order.len() != rows.len() {
        return Err(Refusal::OrderLength);
    }
    let entries = Entries::read(order)?;
    if let Some(p) = entries.first_split(rows) {
        return Err(Refusal::SplitQueue(p));
    }
    entries.fill(rows, figures);
    Ok(entries.first_zero(figures))
}

// Judges the order of any table: the first late position, if there is one, and the figure of row i at place i of the lent list.
pub fn judge(table: &[u32], order: &[u32], figures: &mut [u32]) -> Result<Option<u32>, Refusal>
    ensures { Judged table.now order.now figures.old figures.new (judgement_answer result) }
{
    let mut places = [sums::BLANK; licence::LIMIT];
    let n = intake::take_in(table, figures.len(), &mut places)?;
    judge_order(&places[..n], order, figures)
}
