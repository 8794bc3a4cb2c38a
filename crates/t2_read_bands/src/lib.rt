// The bands of a packet header read one after another (opj_t2_read_packet_header of t2.rs), and blocks of a band from one on, row by row.
#![tactic(auto)]

ghost use Rattle.std.specs.Prelude.{◌≡◌, ◌+◌, ◌-◌, ◌*◌, ◌<◌, ◌≤◌, min, length, take};
ghost use Rattle.t800.specs.TagTree.{levels};
ghost use Rattle.t800.specs.State.{blocks, blocks_in, blocks_from, band_nodes, end_of, not_yet_included};
ghost use Rattle.tcd_laws.specs.Geometry.{AllUpTo64, padded};
ghost use Rattle.t2_read_segments.specs.Reading.{reading, BitsIn, BlocksFit};
ghost use Rattle.t2_read_block_parts.specs.Blocks.{next_blocks};
ghost use Rattle.tcd_places.specs.Places.{BandIn, band_blocks, grid_of};
ghost use Rattle.t2_read_bands.specs.Bands.{BandFits, BandsFit};

use t2_read_segments::Run;
use t800::{Band, Level};
use tcd_places::Grid;

// Blocks of a band, whose first has number `block`: from its block i on, in row y from column x on, up to its block `end`.
pub fn read_blocks(
    words: &mut [u32],
    reports: &mut [u32],
    records: &mut [u32],
    src: &[u8],
    r: Run,
    band: Band,
    tree: &[Level; 7],
    g: Grid,
    layer: u32,
    block: usize,
    x: usize,
    y: usize,
    i: usize,
    end: usize,
) -> Run
    requires { (BitsIn src.now r.bio) × (r.refusal ≡ 0) × (BandIn (length words.old) g.start band)
        × (g ≡ grid_of g.start band) × (tree.now ≡ padded (levels band.across band.down)) × (layer < not_yet_included)
        × (block ≤ 12288) × (BlocksFit words.old (g.start + 6 * band_nodes band + 4 * i) (end - i)) × (end ≤ blocks_in band)
        × (i < end → (i ≡ y * band.across + x) × (x < band.across)) }
    ensures { reading words.new reports.new records.new result
        ≡ next_blocks src.now layer (block + i) (blocks_from g.start band (end - i) i)
        (reading words.old reports.old records.old r) }
{
    let mut run = r;
    let mut column = x;
    let mut line = y;
    let mut at = i;
    while at < end {
        let mut row = [0usize; 7];
        tgt::opj_tgt_row(*tree, g.depth, line, &mut row);
        let start = tcd_places::row_place(g, line);
        let place = tcd_places::place_at(start, column);
        let n = (g.w - column).min(end - at);
        let first = block + at;
        run = t2_read_block::read_row(
            words,
            reports,
            records,
            src,
            run,
            place,
            n,
            &row,
            layer,
            band.planes,
            first,
        );
        if run.refusal != 0 {
            return run;
        }
        at += n;
        column = 0;
        line += 1;
    }
    run
}

// The band's first block has number `block`.
fn read_band(
    words: &mut [u32],
    reports: &mut [u32],
    records: &mut [u32],
    src: &[u8],
    r: Run,
    band: Band,
    tree: &[Level; 7],
    g: Grid,
    layer: u32,
    block: usize,
) -> Run
    requires { (BitsIn src.now r.bio) × (r.refusal ≡ 0) × (BandIn (length words.old) g.start band)
        × (g ≡ grid_of g.start band) × (tree.now ≡ padded (levels band.across band.down)) × (layer < not_yet_included)
        × (block ≤ 12288) × (BandFits words.old g.start band) }
    ensures { reading words.new reports.new records.new result
        ≡ next_blocks src.now layer block (band_blocks g.start band)
        (reading words.old reports.old records.old r) }
{
    let end = tcd_layout::band_blocks(band);
    read_blocks(
        words, reports, records, src, r, band, tree, g, layer, block, 0, 0, 0, end,
    )
}

// The first n bands. Inlined, as a call's arguments cost a good part of what a block does.
#[inline(always)]
pub fn read_bands(
    words: &mut [u32],
    reports: &mut [u32],
    records: &mut [u32],
    src: &[u8],
    r: Run,
    bands: [Band; 3],
    n: usize,
    layer: u32,
) -> Run
    requires { (BitsIn src.now r.bio) × (r.refusal ≡ 0) × (n ≤ 3) × (AllUpTo64 (take n bands))
        × (end_of 13 (take n bands) ≤ length words.old) × (layer < not_yet_included) × (BandsFit words.old 13 (take n bands)) }
    ensures { reading words.new reports.new records.new result
        ≡ next_blocks src.now layer 0 (blocks (take n bands))
        (reading words.old reports.old records.old r) }
{
    let mut run = r;
    let mut start = 13;
    let mut block = 0;
    for i in 0..n {
        let band = bands[i];
        let tree = tcd_levels::levels(band.across, band.down);
        let g = tcd_places::grid_of(band, start);
        run = read_band(
            words, reports, records, src, run, band, &tree, g, layer, block,
        );
        if run.refusal != 0 {
            return run;
        }
        start = tcd_places::grid_end(band, g);
        block += tcd_layout::band_blocks(band);
    }
    run
}
