// New blocks of a band set in its inclusion tree, row by row (opj_t2_encode_packet of t2.rs).
#![tactic(auto)]

ghost use Rattle.std.specs.Prelude.{◌≡◌, ◌+◌, ◌≤◌, length};
ghost use Rattle.t800.specs.TagTree.{levels};
ghost use Rattle.t800.specs.State.{blocks_in};
ghost use Rattle.tcd_laws.specs.Geometry.{padded};
ghost use Rattle.t2_write_new_rows.specs.Setting.{set_all};
ghost use Rattle.tcd_places.specs.Places.{BandIn, band_blocks, grid_of};

use t800::{Band, Level};
use tcd_places::Grid;

// The band's first block has count number `block`.
fn set_rows(
    words: &mut [u32],
    band: Band,
    tree: [Level; 7],
    g: Grid,
    layer: u32,
    counts: &[u32],
    block: usize,
)
    requires { (BandIn (length words.old) g.start band) × (g ≡ grid_of g.start band)
        × (tree ≡ padded (levels band.across band.down)) × (block + blocks_in band ≤ length counts.now) }
    ensures { words.new ≡ set_all layer counts.now (band_blocks g.start band) block words.old }
{
    for y in 0..tcd_places::rows(band) {
        let mut row = [0usize; 7];
        tgt::opj_tgt_row(tree, g.depth, y, &mut row);
        let place = tcd_places::row_place(g, y);
        let first = block + y * g.w;
        t2_write_new_rows::set_row(words, place, g.w, &row, layer, counts, first);
    }
}

// A band without passes has no new block.
pub fn set_new_blocks(
    words: &mut [u32],
    band: Band,
    tree: [Level; 7],
    g: Grid,
    layer: u32,
    counts: &[u32],
    block: usize,
)
    requires { (BandIn (length words.old) g.start band) × (g ≡ grid_of g.start band)
        × (tree ≡ padded (levels band.across band.down)) × (block + blocks_in band ≤ length counts.now) }
    ensures { words.new ≡ set_all layer counts.now (band_blocks g.start band) block words.old }
{
    let end = block + tcd_layout::band_blocks(band);
    if !tcd_shape::any_over(&counts[block..end], 0) {
        return;
    }
    set_rows(words, band, tree, g, layer, counts, block);
}
