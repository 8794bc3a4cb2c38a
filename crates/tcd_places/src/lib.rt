// Where a band, a row of its blocks and one block stand in a state's words.
#![tactic(auto)]

ghost use Rattle.std.specs.Prelude.{◌≡◌, ◌+◌, ◌*◌, ◌^◌, ◌<◌, ◌≤◌};
ghost use Rattle.t800.specs.State.{band_length};
ghost use Rattle.tcd_laws.specs.Geometry.{SidesUpTo64};
ghost use Rattle.tcd_places.specs.Places.{place_at, grid_of, row_place};

use t800::Band;

// Where a block stands: its two trees, their depth, its column in them, its own words.
#[derive(Clone, Copy)]
pub struct Place {
    pub incl: usize,
    pub zero: usize,
    pub depth: usize,
    pub x: usize,
    pub at: usize,
}

// Where a band's words begin, the nodes and levels of one of its trees, its blocks across.
#[derive(Clone, Copy)]
pub struct Grid {
    pub start: usize,
    pub nodes: usize,
    pub depth: usize,
    pub w: usize,
}

// The block i columns on.
pub fn place_at(p: Place, i: usize) -> Place
    requires { (p.x + i < 2 ^ 32) × (p.at + 4 * i < 2 ^ 63) }
    ensures { result ≡ place_at p i }
{
    Place {
        incl: p.incl,
        zero: p.zero,
        depth: p.depth,
        x: p.x + i,
        at: p.at + 4 * i,
    }
}

pub fn grid_of(band: Band, start: usize) -> Grid
    requires { SidesUpTo64 band }
    ensures { result ≡ grid_of start band }
{
    let nodes = tcd_layout::band_nodes(band);
    let depth = tcd_levels::num_levels(band.across, band.down);
    Grid {
        start,
        nodes,
        depth,
        w: band.across as usize,
    }
}

pub fn rows(band: Band) -> usize
    ensures { result ≡ band.down }
{
    band.down as usize
}

// Row y's first block.
pub fn row_place(g: Grid, y: usize) -> Place
    requires { (g.w ≤ 64) × (y ≤ 64) × (g.start + 6 * g.nodes + 4 * (y * g.w) < 2 ^ 63) }
    ensures { result ≡ row_place g y }
{
    let zero = g.start + 3 * g.nodes;
    let before = y * g.w;
    let at = g.start + 6 * g.nodes + 4 * before;
    Place {
        incl: g.start,
        zero,
        depth: g.depth,
        x: 0,
        at,
    }
}

// Where the band's words end.
pub fn grid_end(band: Band, g: Grid) -> usize
    requires { SidesUpTo64 band × (g ≡ grid_of g.start band) × (g.start < 2 ^ 63) }
    ensures { result ≡ g.start + band_length band }
{
    let blocks = tcd_layout::band_blocks(band);
    g.start + 6 * g.nodes + 4 * blocks
}
