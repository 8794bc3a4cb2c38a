// A block's segments, as read, with room for so many records as the run says: those are stored that are lent.
#![tactic(auto)]

ghost use Rattle.std.specs.Prelude.{◌≡◌, ◌+◌, ◌^◌, ◌<◌, ◌≤◌, length};
ghost use Rattle.t800.specs.RefusalNumbers.{number_of};
ghost use Rattle.tcd_places.specs.Places.{block_at};
ghost use Rattle.t2_read_segments.specs.Segments.{limit_after, current_segment};
ghost use Rattle.t2_read_segments.specs.Reading.{reading, WithAnyReports, next_segment, next_segments, SegmentFits};

use t800::{Bio, Refusal};
use tcd_style::Style;

// The segment that a block's next passes go into: whether they open it, its limit, the passes that it has.
#[derive(Clone, Copy)]
pub struct Segment {
    pub opens: bool,
    pub limit: u32,
    pub used: u32,
}

// Where the bits stand, how many records there are and may be, the sum of their lengths modulo 2^64, and the refusal, or 0.
#[derive(Clone, Copy)]
pub struct Run {
    pub bio: Bio,
    pub count: usize,
    pub room: usize,
    pub bytes: u64,
    pub refusal: u32,
}

// Of a block's first segment, or of one after a segment with this limit.
fn limit_after(style: Style, limit: u32) -> u32
    ensures { result ≡ limit_after style.bits limit }
{
    if limit == 0 {
        return style.first_limit();
    }
    style.next_limit(limit)
}

// The open one, or the next where that is full or there is none.
fn current_segment(words: &[u32], at: usize) -> Segment
    requires { at + 3 < length words.now }
    ensures { result ≡ current_segment words.now (block_at at) }
{
    let limit = words[at + 2];
    let used = words[at + 3];
    if limit == used {
        let bits = words[2];
        let next = limit_after(Style { bits }, limit);
        return Segment {
            opens: true,
            limit: next,
            used: 0,
        };
    }
    Segment {
        opens: false,
        limit,
        used,
    }
}

// The reading as it stands, with a refusal.
pub fn refuse(r: Run, why: Refusal) -> Run
    ensures { result ≡ record { bio = r.bio; count = r.count; room = r.room; bytes = r.bytes; refusal = number_of why } }
{
    let refusal = u32::from(why);
    Run { refusal, ..r }
}

// The segment's n passes in this layer.
fn read_segment(
    words: &mut [u32],
    records: &mut [u32],
    src: &[u8],
    r: Run,
    at: usize,
    block: usize,
    s: Segment,
    n: u32,
) -> Run
    requires { (r.bio.ct ≤ 8) × (at + 3 < length words.old) × (block < 2 ^ 32) × (s ≡ current_segment words.old (block_at at))
        × (s.used + n ≤ 164) }
    ensures { WithAnyReports (λ reports. reading words.new reports records.new result)
        (λ reports. next_segment src.now block (block_at at) n
        (reading words.old reports records.old r)) }
{
    let width = t2_segments::field_width(words[at + 1] as u64, n);
    let count = r.count;
    let room = r.room;
    if 32 < width {
        return refuse(r, Refusal::Width);
    }
    if room <= count {
        return refuse(r, Refusal::Records);
    }
    let next = count + 1;
    let len = bio_read::opj_bio_read(src, r.bio, width as u32);
    words[at + 2] = s.limit;
    words[at + 3] = s.used + n;
    let opens = u32::from(s.opens);
    lists::put_record(records, count, block as u32, opens, n, len.value);
    let bytes = r.bytes.wrapping_add(u64::from(len.value));
    let bio = len.bio;
    Run {
        bio,
        count: next,
        room,
        bytes,
        refusal: 0,
    }
}

// Of so many passes in this layer.
pub fn read_segments(
    words: &mut [u32],
    records: &mut [u32],
    src: &[u8],
    r: Run,
    at: usize,
    block: usize,
    passes: u32,
) -> Run
    requires { (r.bio.ct ≤ 8) × (at + 3 < length words.old) × (block < 2 ^ 32) × (passes ≤ 164) × (SegmentFits words.old at)
        × (r.refusal ≡ 0) }
    ensures { WithAnyReports (λ reports. reading words.new reports records.new result)
        (λ reports. next_segments src.now block (block_at at) passes passes
        (reading words.old reports records.old r)) }
{
    let mut run = r;
    let mut left = passes;
    while 0 < left {
        let s = current_segment(words, at);
        let room = s.limit - s.used;
        let n = math::opj_uint_min(room, left);
        run = read_segment(words, records, src, run, at, block, s, n);
        if run.refusal != 0 {
            return run;
        }
        left -= n;
    }
    run
}
