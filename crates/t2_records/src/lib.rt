// The caller's list of segment records as structs, written one record at a time from numbers.
#![tactic(auto)]

ghost use Rattle.std.specs.Prelude.{◌≡◌, slice_set};
ghost use Rattle.t800.specs.Reports.{no_record};
ghost use Rattle.t2_records.specs.Segments.{segment_after, filled};

use t800::{RECORD_WIDTH, SegmentRecord};

// A record is stored where there is room for it.
pub fn put_segment(records: &mut [SegmentRecord], at: usize, s: SegmentRecord)
    ensures { records.new ≡ slice_set records.old at s }
{
    if at < records.len() {
        records[at] = s;
    }
}

// A record of zeros.
pub fn no_segment() -> SegmentRecord
    ensures { result ≡ no_record }
{
    SegmentRecord {
        block: 0,
        opens: 0,
        passes: 0,
        bytes: 0,
        start: 0,
    }
}

// Record i of the numbers, and zeros past the end; its bytes begin where those of the last one end. The sum is modulo 2^64, which the
// lengths of a header never reach.
pub fn segment_after(words: &[u32], i: usize, last: SegmentRecord) -> SegmentRecord
    ensures { result ≡ segment_after words.now i last }
{
    let start = last.start.wrapping_add(u64::from(last.bytes));
    if i < words.len() / RECORD_WIDTH {
        let at = i * RECORD_WIDTH;
        return SegmentRecord {
            block: words[at],
            opens: words[at + 1],
            passes: words[at + 2],
            bytes: words[at + 3],
            start,
        };
    }
    SegmentRecord {
        start,
        ..no_segment()
    }
}

// The first n records are stored from the numbers.
pub fn fill(records: &mut [SegmentRecord], words: &[u32], n: usize)
    ensures { records.new ≡ filled words.now n records.old }
{
    let mut last = no_segment();
    for i in 0..n {
        last = segment_after(words, i, last);
        put_segment(records, i, last);
    }
}
