// The search for the least solution of the equation for w, over rows of numbers.
#![tactic(auto)]

ghost use Rattle.std.specs.Prelude.{◌≡◌, ℕ, ◌+◌, ◌*◌, ◌≤◌, length};
ghost use Rattle.sums.specs.declared.Terms.{Terms};
ghost use Rattle.sums.specs.Terms.{Bounded, Rates, column, lengths, periods, jitters};
ghost use Rattle.sums.specs.Columns.{at};
ghost use Rattle.sums.specs.Masks.{run, outside};
ghost use Rattle.sums.specs.Sums.{sum_over, ceil, demand};
ghost use Rattle.sums.specs.Least.{SettledIs, DemandIs};

// The numbers of a row: its C, T and J, which the sums count; the time allowed, which a verdict asks for; and its band's key, which tells runs
// apart.
#[derive(Clone, Copy)]
pub struct Terms {
    pub length: u32,
    pub period: u32,
    pub jitter: u32,
    pub allowed: u32,
    pub key: u32,
}

// What stands in a place that no row has taken yet.
pub const BLANK: Terms = Terms {
    length: 0,
    period: 0,
    jitter: 0,
    allowed: 0,
    key: 0,
};

// A run of places in a list: from s to e - 1. The list goes beside it, and so does the bound of e: of a struct that held the rows each clause would
// say `band.entry.rows.now`.
#[derive(Clone, Copy)]
pub struct Run {
    pub s: usize,
    pub e: usize,
    ghost forward: { s ≤ e },
}

// What a row adds to a sum.
trait Adds {
    ghost adds: { Self → Terms → ℕ };

    fn of(&self, row: &Terms) -> u64
        requires { Bounded row.now }
        ensures { (result ≡ adds self.now row.now) × (result ≤ 8192004096) };
}

// Its length.
#[derive(Drop)]
struct Lengths;

impl Adds for Lengths {
    ghost adds = { λ x row. row.length };

    fn of(&self, row: &Terms) -> u64 {
        u64::from(row.length)
    }
}

// What a row above adds within w.
#[derive(Drop)]
struct Within {
    w: u32,
    ghost small: { w ≤ 1000000 },
}

impl Adds for Within {
    ghost adds = { λ x row. row.length * ceil (x.w + row.jitter + 1) row.period };

    // One more than the quotient rounded down is the quotient of one more, rounded up.
    fn of(&self, row: &Terms) -> u64 {
        let times = (self.w + row.jitter) / row.period + 1;
        u64::from(row.length) * u64::from(times)
    }
}

// `start` and what the rows of a run add, as far as the cap: the sum stops where it passes it. Three clauses ask `Rates`: a type that carried it
// would have one field, and be opened in each function.
fn sum_of<A: Adds>(start: u32, rows: &[Terms], part: Run, adds: &A, cap: u32) -> Option<u32>
    requires { Rates rows.now × (part.e ≤ length rows.now) × (start ≤ cap) }
    ensures { DemandIs (start + sum_over part.e (run part.s part.e) (at (column (A.adds adds.now) rows.now))) cap result }
{
    let mut sum = start;
    for row in &rows[part.s..part.e] {
        let next = u64::from(sum) + adds.of(row);
        if u64::from(cap) < next {
            return None;
        }
        sum = next as u32;
    }
    Some(sum)
}

// The constant part and what the rows around a band's run add, as far as the cap.
fn sum_around<A: Adds>(base: u32, rows: &[Terms], band: Run, adds: &A, cap: u32) -> Option<u32>
    requires { Rates rows.now × (band.e ≤ length rows.now) × (base ≤ cap) }
    ensures { DemandIs (base + sum_over (length rows.now) (outside band.s band.e) (at (column (A.adds adds.now) rows.now))) cap result }
{
    let before = sum_of(base, rows, Run { s: 0, e: band.s }, adds, cap)?;
    let behind = Run {
        s: band.e,
        e: rows.len(),
    };
    sum_of(before, rows, behind, adds, cap)
}

// The least w with F(w) = w, if it is within the cap: the rows around the band's run are above it.
pub fn least_around(base: u32, rows: &[Terms], band: Run, cap: u32) -> Option<u32>
    requires { Rates rows.now × (band.e ≤ length rows.now) × (cap ≤ 1000000) }
    ensures { SettledIs (demand (length rows.now) (at (lengths rows.now)) (at (periods rows.now)) (at (jitters rows.now)) base (outside band.s band.e)) cap result }
{
    if cap < base {
        return None;
    }
    // Each row above counts at least once, so no w below the start is a solution.
    let mut w = sum_around(base, rows, band, &Lengths, cap)?;
    // A `loop`, since the climb counts nothing: it ends where a step stays.
    loop {
        let next = sum_around(base, rows, band, &Within { w }, cap)?;
        if next == w {
            return Some(w);
        }
        w = next;
    }
}
