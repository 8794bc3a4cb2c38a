// The value of a leaf of a tag tree, as zero planes are read: by raised thresholds (tgt.rs).
// A tree of `depth` levels begins at the word `base`, and its leaf is in column x of the row that `row` was made for.
#![tactic(auto)]

ghost use Rattle.std.specs.Prelude.{◌≡◌, ◌+◌, ◌≤◌, length};
ghost use Rattle.t800.specs.State.{not_yet_planes};
ghost use Rattle.t800.specs.ReadHeader.{read_zero_planes_from};
ghost use Rattle.tgt.specs.Path.{leaf_word, PathIn};
ghost use Rattle.tgt_read.specs.Reading.{path_read, value_after, value_in, leaf_of};

use bio_read::Decoded;
use t800::Bio;

// A value is at most NOT_YET_PLANES, so that it lies below this threshold at the latest.
const LAST_THRESHOLD: u32 = tcd_style::NOT_YET_PLANES + 1;

// The threshold is raised until the leaf's value lies below it.
fn raise(
    words: &mut [u32],
    src: &[u8],
    b: Bio,
    base: usize,
    row: &[usize; 7],
    depth: usize,
    x: usize,
) -> Bio
    requires { (b.ct ≤ 8) × (PathIn (length words.old) base row.now depth x) }
    ensures { path_read words.new result
        ≡ read_zero_planes_from src.now (leaf_of base row.now depth x) (not_yet_planes + 2) 0 words.old b }
{
    let mut bio = b;
    for threshold in 0..=LAST_THRESHOLD {
        let r = tgt_read::opj_tgt_decode(words, src, bio, base, row, depth, x, threshold);
        bio = r.bio;
        if r.below {
            return bio;
        }
    }
    bio
}

// In a tree of one node the thresholds up to the last are read at once.
fn read_planes(
    words: &mut [u32],
    src: &[u8],
    b: Bio,
    base: usize,
    row: &[usize; 7],
    depth: usize,
    x: usize,
) -> Bio
    requires { (b.ct ≤ 8) × (PathIn (length words.old) base row.now depth x) }
    ensures { path_read words.new result
        ≡ read_zero_planes_from src.now (leaf_of base row.now depth x) (not_yet_planes + 2) 0 words.old b }
{
    if depth == 1 {
        return tgt_read::decode_path(words, src, b, base, row, depth, x, LAST_THRESHOLD);
    }
    raise(words, src, b, base, row, depth, x)
}

// The leaf's value, as zero planes are read.
pub fn opj_tgt_decode_value(
    words: &mut [u32],
    src: &[u8],
    b: Bio,
    base: usize,
    row: &[usize; 7],
    depth: usize,
    x: usize,
) -> Decoded
    requires { (b.ct ≤ 8) × (PathIn (length words.old) base row.now depth x) }
    ensures { value_after words.new result
        ≡ value_in (leaf_word base row.now x)
        (read_zero_planes_from src.now (leaf_of base row.now depth x) (not_yet_planes + 2) 0 words.old b) }
{
    let bio = read_planes(words, src, b, base, row, depth, x);
    let value = tgt::leaf_value(words, base, row, depth, x);
    Decoded { value, bio }
}
