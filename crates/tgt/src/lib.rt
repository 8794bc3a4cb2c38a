// Tag trees of a packet header in a lent list of words (tgt.rs): a node is value, low and known, and is found from its level and place.
#![tactic(auto)]

ghost use Rattle.std.specs.Prelude.{◌≡◌, ◌+◌, ◌-◌, ◌*◌, ◌/◌, ◌^◌, ◌<◌, ◌≤◌, length, get_or, replicate};
ghost use Rattle.tgt.specs.Path.{row_over, leaf_word, PathIn, SmallLevels};

use t800::{Bio, Level};

// What a node leaves to the next: its low, and where the bits stand.
#[derive(Clone, Copy)]
pub struct AfterNode {
    pub low: u32,
    pub bio: Bio,
}

// After k bits of the held word, read, or put as zeros.
pub fn after_bits(b: Bio, k: u32) -> Bio
    requires { k ≤ b.ct }
    ensures { result ≡ record { bp = b.bp; buf = b.buf; ct = b.ct - k } }
{
    Bio {
        bp: b.bp,
        buf: b.buf,
        ct: b.ct - k,
    }
}

// The first node on each level of the row over row y of the leaves, into zeros: the same for both trees of a band.
pub fn opj_tgt_row(levels: [Level; 7], depth: usize, y: usize, row: &mut [usize; 7])
    requires { (SmallLevels levels depth) × (y ≤ 64) × (row.old ≡ replicate 7 0) }
    ensures { row.new ≡ row_over levels depth y }
{
    let mut below: usize = 0;
    let mut place = y;
    for i in 0..depth {
        let l = levels[i];
        let w = l.w as usize;
        let h = l.h as usize;
        let before = place * w;
        row[i] = below + before;
        let size = w * h;
        below += size;
        place /= 2;
    }
}

// The first word of the node over column x, on a level whose row begins with `start`.
pub fn first_word(base: usize, start: usize, x: usize, level: usize) -> usize
    requires { (level < 7) × (base + 3 * (start + x / 2 ^ level) < 0x1_0000_0000_0000_0000) }
    ensures { result ≡ base + 3 * (start + x / 2 ^ level) }
{
    let column = x >> level;
    let node = start + column;
    let words = 3 * node;
    base + words
}

// The value of the leaf in column x of the row that `row` was made for, in a tree that begins at the word `base`.
pub fn leaf_value(words: &[u32], base: usize, row: &[usize; 7], depth: usize, x: usize) -> u32
    requires { PathIn (length words.now) base row.now depth x }
    ensures { result ≡ get_or words.now (leaf_word base row.now x) 0 }
{
    let at = first_word(base, row[0], x, 0);
    words[at]
}
