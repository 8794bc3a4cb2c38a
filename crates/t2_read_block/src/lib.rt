// The reading of blocks in a packet header (opj_t2_read_packet_header of t2.rs): a block, new or not, and a row of them.
#![tactic(auto)]

ghost use Rattle.std.specs.Prelude.{◌≡◌, ◌+◌, ◌^◌, ◌<◌, ◌≤◌, length};
ghost use Rattle.t2_read_segments.specs.Reading.{reading, SegmentFits, BlockFits};
ghost use Rattle.t2_read_block_parts.specs.Blocks.{next_new, next_old, next_block, next_blocks};
ghost use Rattle.t2_read_segments.specs.Reading.{BlocksFit, BitsIn};
ghost use Rattle.tcd_places.specs.Places.{BlockIn, RowIn, block_at, block_in, row_blocks};
ghost use Rattle.t800.specs.State.{not_yet_included};

use t2_read_segments::Run;
use tcd_places::Place;

// ---- one block

// Inclusion by tree, until first included.
fn read_new(
    words: &mut [u32],
    reports: &mut [u32],
    records: &mut [u32],
    src: &[u8],
    r: Run,
    p: Place,
    row: &[usize; 7],
    layer: u32,
    planes: u32,
    block: usize,
) -> Run
    requires { (r.bio.ct ≤ 8) × (BlockIn (length words.old) p row.now) × (layer < not_yet_included) × (block < 2 ^ 32)
        × (SegmentFits words.old p.at) }
    ensures { reading words.new reports.new records.new result
        ≡ next_new src.now layer block (block_in p row.now planes)
        (reading words.old reports.old records.old r) }
{
    let w = tgt_read::opj_tgt_decode(words, src, r.bio, p.incl, row, p.depth, p.x, layer + 1);
    let run = t2_read_block_parts::moved(r, w.bio);
    if w.below {
        return t2_read_block_parts::read_first(
            words, reports, records, src, run, p, row, planes, block,
        );
    }
    lists::put_report(reports, block, 0, 0, 0, 0);
    run
}

// Then by one bit.
fn read_old(
    words: &mut [u32],
    reports: &mut [u32],
    records: &mut [u32],
    src: &[u8],
    r: Run,
    at: usize,
    block: usize,
) -> Run
    requires { (r.bio.ct ≤ 8) × (at + 3 < length words.old) × (block < 2 ^ 32) × (BlockFits words.old at) }
    ensures { reading words.new reports.new records.new result
        ≡ next_old src.now block (block_at at)
        (reading words.old reports.old records.old r) }
{
    let bit = bio_read_lent::bit_in(src, r.bio);
    let run = t2_read_block_parts::moved(r, bit.bio);
    if bit.value == 0 {
        lists::put_report(reports, block, 0, 0, 0, 0);
        return run;
    }
    t2_read_block_parts::read_again(words, reports, records, src, run, at, block)
}

pub fn read_block(
    words: &mut [u32],
    reports: &mut [u32],
    records: &mut [u32],
    src: &[u8],
    r: Run,
    p: Place,
    row: &[usize; 7],
    layer: u32,
    planes: u32,
    block: usize,
) -> Run
    requires { (r.bio.ct ≤ 8) × (BlockIn (length words.old) p row.now) × (layer < not_yet_included) × (block < 2 ^ 32)
        × (BlockFits words.old p.at) }
    ensures { reading words.new reports.new records.new result
        ≡ next_block src.now layer block (block_in p row.now planes)
        (reading words.old reports.old records.old r) }
{
    let at = p.at;
    if words[at] == 0 {
        return read_new(
            words, reports, records, src, r, p, row, layer, planes, block,
        );
    }
    read_old(words, reports, records, src, r, at, block)
}

// ---- a row of blocks

// n blocks, of which the first has number `block`.
pub fn read_row(
    words: &mut [u32],
    reports: &mut [u32],
    records: &mut [u32],
    src: &[u8],
    r: Run,
    p: Place,
    n: usize,
    row: &[usize; 7],
    layer: u32,
    planes: u32,
    block: usize,
) -> Run
    requires { (BitsIn src.now r.bio) × (r.refusal ≡ 0) × (RowIn (length words.old) p row.now n) × (layer < not_yet_included)
        × (block + n ≤ 2 ^ 32) × (BlocksFit words.old p.at n) }
    ensures { reading words.new reports.new records.new result
        ≡ next_blocks src.now layer block (row_blocks p row.now planes n 0)
        (reading words.old reports.old records.old r) }
{
    let mut run = r;
    for i in 0..n {
        let place = tcd_places::place_at(p, i);
        let number = block + i;
        run = read_block(
            words, reports, records, src, run, place, row, layer, planes, number,
        );
        if run.refusal != 0 {
            return run;
        }
    }
    run
}
