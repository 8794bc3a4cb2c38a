// Copies of lists, and the rows that a read fills.
#![tactic(auto)]

ghost use Rattle.std.specs.Prelude.{◌≡◌, length, replicate};
ghost use Rattle.lists.specs.Rows.{put_row, put_report, put_record};

use t800::RECORD_WIDTH;

// ---- copies

pub fn copy<T: Copy>(from: &[T], to: &mut [T])
    requires { length from.now ≡ length to.old }
    ensures { to.new ≡ from.now }
{
    for i in 0..from.len() {
        to[i] = from[i];
    }
}

// A type of numbers, with its 0.
pub trait Zero: Copy {
    const ZERO: Self;

    ghost ZERO: { Self };
}

impl Zero for u8 {
    const ZERO: u8 = 0;

    ghost ZERO = { 0 };
}

impl Zero for u32 {
    const ZERO: u32 = 0;

    ghost ZERO = { 0 };
}

pub fn wipe<T: Zero>(list: &mut [T])
    ensures { list.new ≡ replicate (length list.old) T.ZERO }
{
    for entry in list {
        *entry = T::ZERO;
    }
}

// ---- reports and records

// A row of reports or of records: both have RECORD_WIDTH words.
fn put_row(rows: &mut [u32], n: usize, a: u32, b: u32, c: u32, d: u32)
    ensures { rows.new ≡ put_row rows.old n a b c d }
{
    if n < rows.len() / RECORD_WIDTH {
        let at = RECORD_WIDTH * n;
        rows[at] = a;
        rows[at + 1] = b;
        rows[at + 2] = c;
        rows[at + 3] = d;
    }
}

// Segment record n, if it is lent.
pub fn put_record(records: &mut [u32], n: usize, block: u32, opens: u32, passes: u32, bytes: u32)
    ensures { records.new ≡ put_record records.old n block opens passes bytes }
{
    put_row(records, n, block, opens, passes, bytes);
}

// Block report n, if it is lent.
pub fn put_report(
    reports: &mut [u32],
    n: usize,
    inclusion: u32,
    zero_planes: u32,
    planes: u32,
    passes: u32,
)
    ensures { reports.new ≡ put_report reports.old n inclusion zero_planes planes passes }
{
    put_row(reports, n, inclusion, zero_planes, planes, passes);
}
