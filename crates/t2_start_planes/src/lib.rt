// A writer's zero planes, set in its bands' trees at its start (t2.rs).
#![tactic(auto)]

ghost use Rattle.std.specs.Prelude.{◌≡◌, false, ◌+◌, ◌≤◌, length, take, ltb};
ghost use Rattle.t800.specs.Base.{any};
ghost use Rattle.t800.specs.TagTree.{levels};
ghost use Rattle.t800.specs.State.{blocks_in, band_nodes, band_length, blocks_from, blocks, state_length};
ghost use Rattle.t800.specs.Ranges.{block_too_deep};
ghost use Rattle.t800.specs.Start.{set_zero_planes};
ghost use Rattle.tcd_laws.specs.Geometry.{padded, SidesUpTo64, AllUpTo64};
ghost use Rattle.t2_start_planes.specs.Rows.{set_row, ColumnsIn};

use t800::{Band, Level};

// The blocks of one row, whose first nodes are given.
fn set_row(
    state: &mut [u32],
    base: usize,
    row: &[usize; 7],
    depth: usize,
    most: u32,
    planes: &[u32],
)
    requires { (ColumnsIn (length state.old) base row.now depth (length planes.now))
        × (any (λ p. ltb most p) planes.now ≡ false) }
    ensures { state.new ≡ set_row base row.now depth most 0 planes.now state.old }
{
    for (x, &p) in planes.iter().enumerate() {
        let zero = most - p;
        tgt_set::opj_tgt_setvalue(state, base, row, depth, x, zero);
    }
}

// Row by row; the band's words begin at `at`.
fn set_rows(
    state: &mut [u32],
    at: usize,
    nodes: usize,
    band: Band,
    tree: [Level; 7],
    depth: usize,
    planes: &[u32],
)
    requires { SidesUpTo64 band × (nodes ≡ band_nodes band) × (tree ≡ padded (levels band.across band.down))
        × (depth ≡ length (levels band.across band.down)) × (at + band_length band ≤ length state.old)
        × (length planes.now ≡ blocks_in band) × (any (λ p. ltb band.planes p) planes.now ≡ false) }
    ensures { state.new ≡ set_zero_planes (blocks_from at band (blocks_in band) 0) planes.now state.old }
{
    let base = at + 3 * nodes;
    let across = band.across as usize;
    let mut from: usize = 0;
    for y in 0..band.down as usize {
        let mut row = [0usize; 7];
        tgt::opj_tgt_row(tree, depth, y, &mut row);
        let to = from + across;
        set_row(state, base, &row, depth, band.planes, &planes[from..to]);
        from = to;
    }
}

fn set_band(state: &mut [u32], at: usize, band: Band, planes: &[u32])
    requires { SidesUpTo64 band × (at + band_length band ≤ length state.old) × (length planes.now ≡ blocks_in band)
        × (any (λ p. ltb band.planes p) planes.now ≡ false) }
    ensures { state.new ≡ set_zero_planes (blocks_from at band (blocks_in band) 0) planes.now state.old }
{
    let nodes = tcd_layout::band_nodes(band);
    let tree = tcd_levels::levels(band.across, band.down);
    let depth = tcd_levels::num_levels(band.across, band.down);
    set_rows(state, at, nodes, band, tree, depth, planes);
}

pub fn set_zero_planes(bands: [Band; 3], n: usize, planes: &[u32], state: &mut [u32])
    requires { (n ≤ 3) × AllUpTo64 (take n bands) × (length state.old ≡ state_length (take n bands))
        × (length planes.now ≡ length (blocks (take n bands))) × (block_too_deep (blocks (take n bands)) planes.now ≡ false) }
    ensures { state.new ≡ set_zero_planes (blocks (take n bands)) planes.now state.old }
{
    let mut at: usize = 13;
    let mut from: usize = 0;
    for &band in &bands[..n] {
        let size = tcd_layout::band_blocks(band);
        let to = from + size;
        set_band(state, at, band, &planes[from..to]);
        let words = tcd_layout::band_length(band);
        at += words;
        from = to;
    }
}
