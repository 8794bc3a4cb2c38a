// Blocks of a packet header skipped through a window on header bytes that lie in PPT marker segments: block by block, band by band.
#![tactic(auto)]

ghost use Rattle.std.specs.Prelude.{◌≡◌, [], ◌∷◌, ◌+◌, ◌*◌, ◌^◌, ◌<◌, ◌≤◌, length, take};
ghost use Rattle.t800.specs.PackedHeaders.{unpacked};
ghost use Rattle.t800.specs.TagTree.{levels};
ghost use Rattle.t800.specs.State.{band_nodes, band_length, block_of, blocks_in, blocks, end_of, not_yet_included};
ghost use Rattle.tcd_laws.specs.Geometry.{AllUpTo64, padded};
ghost use Rattle.tcd_places.specs.Places.{BandIn, band_blocks, grid_of};
ghost use Rattle.t2_read_segments.specs.Reading.{reading, BitsIn, BlockFits};
ghost use Rattle.t2_read_block_parts.specs.Blocks.{next_block};
ghost use Rattle.t2_read_bands.specs.Bands.{BandFits, BandsFit};
ghost use Rattle.t2_skip_windows.specs.Windows.{window_bytes, run_at, Ahead, WindowOn, Somewhere, Skips, SkipsTo};

use t2_read_segments::Run;
use t2_unpack_headers::Cursor;
use t800::{Band, Bio, Level};
use tcd_places::Grid;

// Up to this place of the window's 32,768 bytes 11,264 are ahead: no block takes more.
pub const LAST_PLACE: usize = 21504;

// A reading whose bits are counted from the window's first byte, and which header byte that is.
#[derive(Clone, Copy)]
pub struct InWindow {
    pub run: Run,
    pub base: usize,
}

// ---- the window

// The header bytes from `from` on.
pub fn fill_from(segments: &[u8], window: &mut [u8], from: usize)
    requires { ((unpacked segments.now).refusal ≡ 0) × (length window.old ≡ window_bytes) }
    ensures { WindowOn segments.now window.new from }
{
    let start = Cursor { at: 0, before: 0 };
    t2_unpack_headers::copy_headers(segments, start, from, window);
}

fn run_at(place: usize, r: Run) -> Run
    ensures { result ≡ run_at place r }
{
    let bio = Bio {
        bp: place,
        buf: r.bio.buf,
        ct: r.bio.ct,
    };
    Run {
        bio,
        count: r.count,
        room: r.room,
        bytes: r.bytes,
        refusal: r.refusal,
    }
}

// The same, from the byte where the bits stand on, where too few are ahead.
pub fn fill(segments: &[u8], window: &mut [u8], s: InWindow) -> InWindow
    requires { (WindowOn segments.now window.old s.base) × (s.base + s.run.bio.bp < 2 ^ 64) }
    ensures { (WindowOn segments.now window.new result.base) × (Ahead s result) }
{
    let run = s.run;
    if run.bio.bp <= LAST_PLACE {
        return s;
    }
    let from = s.base + run.bio.bp;
    fill_from(segments, window, from);
    let first = run_at(0, run);
    InWindow {
        run: first,
        base: from,
    }
}

// ---- one block

// Block i of a band, in row y and column x; the band's first block has number `block`. Reports and records go into lists without room.
fn skip_block(
    words: &mut [u32],
    window: &[u8],
    r: Run,
    band: Band,
    tree: [Level; 7],
    g: Grid,
    layer: u32,
    block: usize,
    x: usize,
    y: usize,
    i: usize,
) -> Run
    requires { (BitsIn window.now r.bio) × (r.refusal ≡ 0) × (BandIn (length words.old) g.start band)
        × (g ≡ grid_of g.start band) × (tree ≡ padded (levels band.across band.down)) × (layer < not_yet_included)
        × (block ≤ 12288) × (BlockFits words.old (g.start + 6 * band_nodes band + 4 * i)) × (i < blocks_in band)
        × (i ≡ y * band.across + x) × (x < band.across) }
    ensures { reading words.new [] [] result
        ≡ next_block window.now layer (block + i) (block_of g.start band i) (reading words.old [] [] r) }
{
    let mut reports = [0u32; 0];
    let mut records = [0u32; 0];
    let end = i + 1;
    t2_read_bands::read_blocks(
        words,
        &mut reports,
        &mut records,
        window,
        r,
        band,
        &tree,
        g,
        layer,
        block,
        x,
        y,
        i,
        end,
    )
}

fn next_block(
    words: &mut [u32],
    segments: &[u8],
    window: &mut [u8],
    s: InWindow,
    band: Band,
    tree: [Level; 7],
    g: Grid,
    layer: u32,
    block: usize,
    x: usize,
    y: usize,
    i: usize,
) -> InWindow
    requires { (WindowOn segments.now window.old s.base) × (Somewhere (block + i) words.old s)
        × (BandIn (length words.old) g.start band) × (g ≡ grid_of g.start band)
        × (tree ≡ padded (levels band.across band.down)) × (layer < not_yet_included) × (block + blocks_in band ≤ 12288)
        × (BlockFits words.old (g.start + 6 * band_nodes band + 4 * i)) × (i < blocks_in band) × (i ≡ y * band.across + x)
        × (x < band.across) }
    ensures { SkipsTo segments.now layer (block + i) (block_of g.start band i ∷ [])
        (g.start + 6 * band_nodes band + 4 * (i + 1)) words.old s window.new words.new result }
{
    let ready = fill(segments, window, s);
    let run = skip_block(
        words, window, ready.run, band, tree, g, layer, block, x, y, i,
    );
    InWindow {
        run,
        base: ready.base,
    }
}

// ---- several

// A block's column and row in its band.
#[derive(Clone, Copy)]
struct At {
    x: usize,
    y: usize,
}

impl At {
    // Those of the next block, in rows of w.
    fn next(self, w: usize) -> At
        requires { (self.x < w) × (self.y ≤ 64) }
        ensures { (result.y * w + result.x ≡ self.y * w + self.x + 1) × (result.x < w) }
    {
        let x = self.x + 1;
        if x < w {
            return At { x, y: self.y };
        }
        At {
            x: 0,
            y: self.y + 1,
        }
    }
}

// The band's first block has number `block`.
fn skip_band(
    words: &mut [u32],
    segments: &[u8],
    window: &mut [u8],
    s: InWindow,
    band: Band,
    tree: [Level; 7],
    g: Grid,
    layer: u32,
    block: usize,
) -> InWindow
    requires { (WindowOn segments.now window.old s.base) × (Somewhere block words.old s)
        × (BandIn (length words.old) g.start band) × (g ≡ grid_of g.start band)
        × (tree ≡ padded (levels band.across band.down)) × (layer < not_yet_included) × (block + blocks_in band ≤ 12288)
        × (BandFits words.old g.start band) }
    ensures { SkipsTo segments.now layer block (band_blocks g.start band) (g.start + band_length band)
        words.old s window.new words.new result }
{
    let end = tcd_layout::band_blocks(band);
    let mut stand = s;
    let mut at = At { x: 0, y: 0 };
    for i in 0..end {
        stand = next_block(
            words, segments, window, stand, band, tree, g, layer, block, at.x, at.y, i,
        );
        if stand.run.refusal != 0 {
            return stand;
        }
        at = at.next(g.w);
    }
    stand
}

// The first n bands.
pub fn skip_bands(
    words: &mut [u32],
    segments: &[u8],
    window: &mut [u8],
    s: InWindow,
    bands: [Band; 3],
    n: usize,
    layer: u32,
) -> InWindow
    requires { (WindowOn segments.now window.old s.base) × (Somewhere 0 words.old s) × (n ≤ 3)
        × (AllUpTo64 (take n bands)) × (end_of 13 (take n bands) ≤ length words.old) × (layer < not_yet_included)
        × (BandsFit words.old 13 (take n bands)) }
    ensures { (WindowOn segments.now window.new result.base)
        × (Skips (unpacked segments.now).bytes layer 0 (blocks (take n bands)) words.old s words.new result) }
{
    let trees = tcd_levels::band_levels(bands);
    let mut stand = s;
    let mut start: usize = 13;
    let mut block: usize = 0;
    for i in 0..n {
        let band = bands[i];
        let tree = trees[i];
        let g = tcd_places::grid_of(band, start);
        stand = skip_band(words, segments, window, stand, band, tree, g, layer, block);
        if stand.run.refusal != 0 {
            return stand;
        }
        start = tcd_places::grid_end(band, g);
        block += tcd_layout::band_blocks(band);
    }
    stand
}
