// The coding of a packet's blocks band by band (opj_t2_encode_packet of t2.rs): a band's new blocks are set, then all are coded,
// row by row.
#![tactic(auto)]

ghost use Rattle.std.specs.Prelude.{◌≡◌, ◌+◌, ◌<◌, ◌≤◌, T, length, take};
ghost use Rattle.t800.specs.TagTree.{levels};
ghost use Rattle.t800.specs.State.{blocks_in, blocks, state_length, not_yet_included};
ghost use Rattle.t800.specs.WriteHeader.{set_new_blocks, code_blocks};
ghost use Rattle.bio_bytes.specs.Writing.{output, FreeBitsClear};
ghost use Rattle.tgt_write.specs.Coding.{leaf_coded, put_coded};
ghost use Rattle.tcd_laws.specs.Geometry.{AllUpTo64, padded};
ghost use Rattle.t2_write_codes.specs.PassTable.{is_pass_table};
ghost use Rattle.t2_write_block.specs.Runs.{running, code_all, AllFit};
ghost use Rattle.t2_write_bands.specs.Bands.{code_band};
ghost use Rattle.tcd_places.specs.Places.{BandIn, band_blocks, grid_of};

use t2_write_block::{Coding, Run};
use t800::{Band, Bio, Level};
use tcd_places::Grid;

fn code_blocks(
    words: &mut [u32],
    out: &mut [u8],
    r: Run,
    band: Band,
    tree: [Level; 7],
    g: Grid,
    by: &Coding<'_>,
) -> Run
    requires { (FreeBitsClear r.bio) × (BandIn (length words.old) g.start band)
        × (g ≡ grid_of g.start band) × (tree ≡ padded (levels band.across band.down))
        × (AllFit by.now.counts.now by.now.lengths.now by.now.marks.now words.old (band_blocks g.start band) r.block r.pass) }
    ensures { running words.new out.new result
        ≡ code_all by.now.layer by.now.counts.now by.now.lengths.now by.now.marks.now (band_blocks g.start band)
        (running words.old out.old r) }
{
    let mut run = r;
    for y in 0..tcd_places::rows(band) {
        let mut row = [0usize; 7];
        tgt::opj_tgt_row(tree, g.depth, y, &mut row);
        let place = tcd_places::row_place(g, y);
        run = t2_write_block::code_row(words, out, run, place, g.w, &row, by);
    }
    run
}

// The band's new blocks are set before its first is coded.
fn code_band(
    words: &mut [u32],
    out: &mut [u8],
    r: Run,
    band: Band,
    tree: [Level; 7],
    g: Grid,
    by: &Coding<'_>,
) -> Run
    requires { (FreeBitsClear r.bio) × (BandIn (length words.old) g.start band)
        × (g ≡ grid_of g.start band) × (tree ≡ padded (levels band.across band.down))
        × (r.block + blocks_in band ≤ length by.now.counts.now)
        × (AllFit by.now.counts.now by.now.lengths.now by.now.marks.now words.old (band_blocks g.start band) r.block r.pass) }
    ensures { running words.new out.new result
        ≡ code_band by.now.layer by.now.counts.now by.now.lengths.now by.now.marks.now g.start band
        (running words.old out.old r) }
{
    t2_write_new_blocks::set_new_blocks(words, band, tree, g, by.layer, by.counts, r.block);
    code_blocks(words, out, r, band, tree, g, by)
}

// The blocks of the first n bands.
pub fn code_bands(
    words: &mut [u32],
    out: &mut [u8],
    b: Bio,
    bands: [Band; 3],
    n: usize,
    by: &Coding<'_>,
) -> Bio
    requires { (FreeBitsClear b) × (n ≤ 3) × (AllUpTo64 (take n bands))
        × (length words.old ≡ state_length (take n bands))
        × (length by.now.counts.now ≡ length (blocks (take n bands)))
        × (AllFit by.now.counts.now by.now.lengths.now by.now.marks.now words.old (blocks (take n bands)) 0 0) }
    ensures { leaf_coded words.new out.new result
        ≡ put_coded (output out.old b)
        (code_blocks by.now.layer (blocks (take n bands)) by.now.counts.now by.now.lengths.now by.now.marks.now
        (set_new_blocks by.now.layer (blocks (take n bands)) by.now.counts.now words.old)) }
{
    let trees = tcd_levels::band_levels(bands);
    let mut run = Run {
        bio: b,
        block: 0,
        pass: 0,
    };
    let mut start: usize = 13;
    for (band, tree) in bands[..n].iter().zip(&trees) {
        let g = tcd_places::grid_of(*band, start);
        run = code_band(words, out, run, *band, *tree, g, by);
        start = tcd_places::grid_end(*band, g);
    }
    run.bio
}
