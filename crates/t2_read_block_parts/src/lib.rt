// The parts of a block that is read (opj_t2_read_packet_header of t2.rs): included for the first time, and again.
#![tactic(auto)]

ghost use Rattle.std.specs.Prelude.{◌≡◌, ◌+◌, ◌^◌, ◌<◌, ◌≤◌, length};
ghost use Rattle.tgt_read.specs.Reading.{value_after};
ghost use Rattle.t2_read_segments.specs.Reading.{reading, SegmentFits, BlockFits};
ghost use Rattle.t2_read_block_parts.specs.Blocks.{passes_read, next_first, next_again};
ghost use Rattle.tcd_places.specs.Places.{BlockIn, block_at, block_in};

use bio_read::Decoded;
use t2_read_segments::Run;
use t800::Bio;
use tcd_places::Place;

// Pass count and increment, of a block with so many passes so far and those length bits.
fn read_passes(words: &mut [u32], src: &[u8], b: Bio, at: usize, before: u32, bits: u32) -> Decoded
    requires { (b.ct ≤ 8) × (at + 3 < length words.old) × (before + 164 < 2 ^ 32) × (bits ≤ 32) }
    ensures { value_after words.new result ≡ passes_read src.now at before bits words.old b }
{
    let n = t2_read_codes::opj_t2_getnumpasses(src, b);
    let more = t2_read_codes::opj_t2_getcommacode(src, n.bio);
    words[at] = before + n.value;
    words[at + 1] = bits + more.value;
    let bio = more.bio;
    Decoded {
        value: n.value,
        bio,
    }
}

pub fn moved(r: Run, bio: Bio) -> Run
    ensures { result ≡ record { bio = bio; count = r.count; room = r.room; bytes = r.bytes; refusal = 0 } }
{
    Run {
        bio,
        refusal: 0,
        ..r
    }
}

// Included for the first time, after the inclusion.
pub fn read_first(
    words: &mut [u32],
    reports: &mut [u32],
    records: &mut [u32],
    src: &[u8],
    r: Run,
    p: Place,
    row: &[usize; 7],
    planes: u32,
    block: usize,
) -> Run
    requires { (r.bio.ct ≤ 8) × (BlockIn (length words.old) p row.now) × (block < 2 ^ 32) × (SegmentFits words.old p.at) }
    ensures { reading words.new reports.new records.new result
        ≡ next_first src.now block (block_in p row.now planes)
        (reading words.old reports.old records.old r) }
{
    let z = tgt_read_value::opj_tgt_decode_value(words, src, r.bio, p.zero, row, p.depth, p.x);
    let n = read_passes(words, src, z.bio, p.at, 0, 3);
    let left = tcd_style::block_planes(planes, z.value);
    lists::put_report(reports, block, 1, z.value, left, n.value);
    t2_read_segments::read_segments(words, records, src, moved(r, n.bio), p.at, block, n.value)
}

pub fn read_again(
    words: &mut [u32],
    reports: &mut [u32],
    records: &mut [u32],
    src: &[u8],
    r: Run,
    at: usize,
    block: usize,
) -> Run
    requires { (r.bio.ct ≤ 8) × (at + 3 < length words.old) × (block < 2 ^ 32) × (BlockFits words.old at) }
    ensures { reading words.new reports.new records.new result
        ≡ next_again src.now block (block_at at)
        (reading words.old reports.old records.old r) }
{
    let before = words[at];
    let bits = words[at + 1];
    let n = read_passes(words, src, r.bio, at, before, bits);
    lists::put_report(reports, block, 2, 0, 0, n.value);
    t2_read_segments::read_segments(words, records, src, moved(r, n.bio), at, block, n.value)
}
