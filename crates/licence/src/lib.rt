// One row of the licence table: six words are read once into a record, and the numbers of the row are taken from that.
#![tactic(auto)]

ghost use Rattle.std.specs.Prelude.{◌≡◌, ◌+◌, ◌*◌, ◌≤◌, ◌<◌, length};
ghost use Rattle.licence.specs.Row.{size_allowed, length_of, queue_of, number_of, read_at, field_of, frame, bit_times, band_key};

// A table has at most this many rows. The definition is `limit` of specs/Limit.antt: where the two differ, `intake::take_in` is not proved.
pub const LIMIT: usize = 64;

// More than any band's key: those of FIFOs go to 64, and each row has one past them.
pub const KEYS: usize = LIMIT + 65;

// A length in bit times, or the byte count of a frame with an 11-bit or a 29-bit identifier.
#[derive(Clone, Copy)]
pub enum Length {
    Bits(u32),
    Std(u32),
    Ext(u32),
}

// An enum of its own, though of Option's shape: document 01 names the form.
#[derive(Clone, Copy)]
pub enum Queue {
    Priority,
    Fifo(u32),
}

#[derive(Clone, Copy)]
pub struct Row {
    pub queue: Queue,
    pub length: Length,
    pub period: u32,
    pub deadline: u32,
    pub jitter: u32,
}

// A row's six fields, one to a word. A row that can't be read is refused with its lowest bad one.
#[derive(Clone, Copy, PartialEq, Eq)]
pub enum Field {
    Queue = 1,
    Form,
    Size,
    Period,
    Deadline,
    Jitter,
}

// A field's number in a refusal, 1 to 6.
impl From<Field> for u32 {
    ghost from_gives = { λ field number. number ≡ number_of field };

    fn from(field: Field) -> u32 {
        field as u32
    }
}

// Whether form f allows size s. Forms are numbers in the words that C lends, and a `Length` keeps them from here on.
fn size_allowed(f: u32, s: u32) -> bool
    ensures { result ≡ size_allowed f s }
{
    if f == 0 {
        (1..=4096).contains(&s)
    } else {
        s <= 8
    }
}

// The length of form f and size s. Not a `From`: a pair would not say which word is the form.
fn length_of(f: u32, s: u32) -> Length
    ensures { result ≡ length_of f s }
{
    match f {
        0 => Length::Bits(s),
        1 => Length::Std(s),
        _ => Length::Ext(s),
    }
}

// The queue of a number.
impl From<u32> for Queue {
    ghost from_gives = { λ q queue. queue ≡ queue_of q };

    fn from(q: u32) -> Queue {
        match q {
            0 => Queue::Priority,
            _ => Queue::Fifo(q),
        }
    }
}

// Row i of the table, or its lowest bad field.
pub fn read_row(table: &[u32], i: usize) -> Result<Row, Field>
    requires { i * 6 + 6 ≤ length table.now }
    ensures { result ≡ read_at table.now i }
{
    let &[queue, form, size, period, deadline, jitter] = &table[i * 6..i * 6 + 6] else {
        unreachable!();
    };
    if 64 < queue {
        return Err(Field::Queue);
    }
    if 2 < form {
        return Err(Field::Form);
    }
    if !size_allowed(form, size) {
        return Err(Field::Size);
    }
    if !(1..=1000000).contains(&period) {
        return Err(Field::Period);
    }
    if !(1..=period).contains(&deadline) {
        return Err(Field::Deadline);
    }
    if deadline < jitter {
        return Err(Field::Jitter);
    }
    Ok(Row {
        queue: Queue::from(queue),
        length: length_of(form, size),
        period,
        deadline,
        jitter,
    })
}

// The number of the field that a reading tells, or 0 where the row can be read, as `field_of` of specs/Row says.
pub fn field_of(reading: Result<Row, Field>) -> u32
    ensures { result ≡ field_of reading }
{
    match reading {
        Ok(_) => 0,
        Err(field) => u32::from(field),
    }
}

// The bit times of a frame with s bytes: at worst a stuff bit comes after the first five bits, and after every four more.
fn frame_times(g: u32, s: u32) -> u32
    requires { (0 < g) × (frame g s ≤ 4096) }
    ensures { result ≡ frame g s }
{
    let bits = g + 8 * s;
    bits + 13 + (bits - 1) / 4
}

// A length in bit times: the C of its row.
pub fn bit_times(l: Length) -> u32
    requires { bit_times l ≤ 4096 }
    ensures { result ≡ bit_times l }
{
    match l {
        Length::Bits(s) => s,
        Length::Std(s) => frame_times(34, s),
        Length::Ext(s) => frame_times(54, s),
    }
}

// The key of the band of row i, which is in queue q: two rows are in one band where their keys are equal.
pub fn band_key(q: Queue, i: u32) -> u32
    requires { i ≤ 65535 }
    ensures { result ≡ band_key q i }
{
    match q {
        Queue::Priority => 65 + i,
        Queue::Fifo(n) => n,
    }
}
