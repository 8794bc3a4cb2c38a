// The levels of a band's tag trees by value: nodes across and down, their number, and the nodes of all (tcd.rs).
#![tactic(auto)]

ghost use Rattle.std.specs.Prelude.{◌≡◌, ◌+◌, ◌*◌, ◌/◌, ◌≤◌, length};
ghost use Rattle.t800.specs.TagTree.{levels, nodes};
ghost use Rattle.tcd_laws.specs.Geometry.{padded, band_levels};

use t800::{Band, Level};

pub fn area(w: u32, h: u32) -> usize
    ensures { result ≡ w * h }
{
    w as usize * h as usize
}

fn level_above(below: Level) -> Level
    ensures { result ≡ record { w = (below.w + 1) / 2; h = (below.h + 1) / 2 } }
{
    Level {
        w: below.w.div_ceil(2),
        h: below.h.div_ceil(2),
    }
}

// The levels of a tree with w leaves across and h down, from the leaves to the root; those past the root are empty.
pub fn levels(w: u32, h: u32) -> [Level; 7]
    ensures { result ≡ padded (levels w h) }
{
    let mut tree = [Level { w: 0, h: 0 }; 7];
    let mut next = Level { w, h };
    for level in &mut tree {
        *level = next;
        if area(next.w, next.h) <= 1 {
            break;
        }
        next = level_above(next);
    }
    tree
}

pub fn num_levels(w: u32, h: u32) -> usize
    ensures { result ≡ length (levels w h) }
{
    let mut level = Level { w, h };
    for i in 0..7 {
        if area(level.w, level.h) <= 1 {
            return i + 1;
        }
        level = level_above(level);
    }
    7
}

// The levels of each of three bands, used or not.
pub fn band_levels(bands: [Band; 3]) -> [[Level; 7]; 3]
    ensures { result ≡ band_levels bands }
{
    let [a, b, c] = bands;
    [
        levels(a.across, a.down),
        levels(b.across, b.down),
        levels(c.across, c.down),
    ]
}

// The nodes of one tree.
pub fn num_nodes(w: u32, h: u32) -> usize
    requires { (w ≤ 64) × (h ≤ 64) }
    ensures { result ≡ nodes w h }
{
    let mut level = Level { w, h };
    let mut sum = 0;
    for _ in 0..7usize {
        let size = area(level.w, level.h);
        sum += size;
        if size <= 1 {
            break;
        }
        level = level_above(level);
    }
    sum
}
