// A row's new blocks set in the inclusion tree (opj_t2_encode_packet of t2.rs).
#![tactic(auto)]

ghost use Rattle.std.specs.Prelude.{◌≡◌, ◌+◌, ◌≤◌, length};
ghost use Rattle.tcd_places.specs.Places.{BlockIn, RowIn, block_in, row_blocks};
ghost use Rattle.t2_write_new_rows.specs.Setting.{set_next, set_all};

use tcd_places::Place;

fn set_next(words: &mut [u32], p: Place, row: &[usize; 7], layer: u32, count: u32)
    requires { BlockIn (length words.old) p row.now }
    ensures { words.new ≡ set_next layer (block_in p row.now 0) count words.old }
{
    let at = p.at;
    if words[at] != 0 {
        return;
    }
    if count == 0 {
        return;
    }
    tgt_set::opj_tgt_setvalue(words, p.incl, row, p.depth, p.x, layer);
}

// n blocks, of which the first has count number `block`.
pub fn set_row(
    words: &mut [u32],
    p: Place,
    n: usize,
    row: &[usize; 7],
    layer: u32,
    counts: &[u32],
    block: usize,
)
    requires { (RowIn (length words.old) p row.now n) × (block + n ≤ length counts.now) }
    ensures { words.new
        ≡ set_all layer counts.now (row_blocks p row.now 0 n 0) block words.old }
{
    for i in 0..n {
        let place = tcd_places::place_at(p, i);
        set_next(words, place, row, layer, counts[block + i]);
    }
}
