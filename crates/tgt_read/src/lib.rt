// A tag tree's nodes read on the way to a leaf (tgt.rs), from the bits of a packet header.
// A tree of `depth` levels begins at the word `base`, and its leaf is in column x of the row that `row` was made for.
#![tactic(auto)]

ghost use Rattle.std.specs.Prelude.{◌≡◌, ◌&&◌, reverse, ◌+◌, ◌%◌, ◌^◌, ◌<◌, ◌≤◌, eqb, ltb, length};
ghost use Rattle.t800.specs.TagTree.{read_node, read_path};
ghost use Rattle.tgt.specs.Path.{path_over, leaf_word, PathIn, NodesIn};
ghost use Rattle.tgt_read.specs.Reading.{path_read, leaf_after, below_in, node_read, node_after, read_at, LeadingZeros};

use t800::Bio;
use tgt::AfterNode;

// A node's value and low after a read, and where reading goes on.
#[derive(Clone, Copy)]
struct NodeRead {
    value: u32,
    low: u32,
    bio: Bio,
}

// Whether the leaf's value lies below the threshold, and where reading goes on.
#[derive(Clone, Copy)]
pub struct LeafRead {
    pub below: bool,
    pub bio: Bio,
}

// The bits of the held word that are still to be read.
fn held(b: Bio) -> u32
    requires { b.ct ≤ 8 }
    ensures { result ≡ b.buf % 2 ^ b.ct }
{
    b.buf & ((1u32 << b.ct) - 1)
}

fn leading_zeros(b: Bio) -> u32
    requires { b.ct ≤ 8 }
    ensures { LeadingZeros b result }
{
    let above = 32 - b.ct;
    u32::leading_zeros(held(b)) - above
}

// Whether a node's bits go on after the held word.
fn runs_on(b: Bio, left: u32) -> bool
    requires { b.ct ≤ 8 }
    ensures { result ≡ (ltb b.ct left && eqb (b.buf % 2 ^ b.ct) 0) }
{
    b.ct < left && held(b) == 0
}

// One bit: a 0 raises low, a 1 is the value.
fn seek_one(src: &[u8], b: Bio, value: u32, low: u32) -> NodeRead
    requires { (b.ct ≤ 8) × (low < value) }
    ensures { node_read result ≡ read_node src.now 1 value low b }
{
    let r = bio_read_lent::bit_in(src, b);
    let bio = r.bio;
    if r.value == 0 {
        let raised = low + 1;
        return NodeRead {
            value,
            low: raised,
            bio,
        };
    }
    NodeRead {
        value: low,
        low,
        bio,
    }
}

// Low rises over zeros, by `left` at most; a 1 is the value. A held word of zeros is passed over at once.
fn seek_chunks(src: &[u8], b: Bio, value: u32, low: u32, left: u32) -> NodeRead
    requires { (b.ct ≤ 8) × (low + left ≤ value) }
    ensures { node_read result ≡ read_node src.now left value low b }
{
    let mut bio = b;
    let mut from = low;
    let mut more = left;
    while runs_on(bio, more) {
        from += bio.ct;
        more -= bio.ct;
        bio = bio_read::opj_bio_bytein(src, bio);
    }
    let z = leading_zeros(bio);
    if more <= z {
        let after = tgt::after_bits(bio, more);
        return NodeRead {
            value,
            low: from + more,
            bio: after,
        };
    }
    let reached = from + z;
    let after = tgt::after_bits(bio, z + 1);
    NodeRead {
        value: reached,
        low: reached,
        bio: after,
    }
}

// Mostly the threshold lies one above low.
fn seek(src: &[u8], b: Bio, value: u32, low: u32, left: u32) -> NodeRead
    requires { (b.ct ≤ 8) × (low + left ≤ value) }
    ensures { node_read result ≡ read_node src.now left value low b }
{
    if left == 1 {
        return seek_one(src, b, value, low);
    }
    seek_chunks(src, b, value, low, left)
}

fn decode_node(
    words: &mut [u32],
    src: &[u8],
    b: Bio,
    at: usize,
    low: u32,
    threshold: u32,
) -> AfterNode
    requires { (b.ct ≤ 8) × (at + 2 < length words.old) }
    ensures { node_after words.new result ≡ read_at src.now threshold at low words.old b }
{
    let value = words[at];
    let from = math::opj_uint_max(low, words[at + 1]);
    let limit = math::opj_uint_min(value, threshold);
    if limit <= from {
        words[at + 1] = from;
        return AfterNode { low: from, bio: b };
    }
    let r = seek(src, b, value, from, limit - from);
    words[at] = r.value;
    words[at + 1] = r.low;
    let bio = r.bio;
    AfterNode { low: r.low, bio }
}

// The leaf's nodes on the first levels, from the top down; `above` is the low of the node over them.
fn decode_below(
    words: &mut [u32],
    src: &[u8],
    b: Bio,
    base: usize,
    row: &[usize; 7],
    levels: usize,
    x: usize,
    threshold: u32,
    above: u32,
) -> Bio
    requires { (b.ct ≤ 8) × (NodesIn (length words.old) base row.now levels x) }
    ensures { path_read words.new result
        ≡ read_path src.now base threshold (reverse (path_over row.now levels x)) above words.old b }
{
    let mut bio = b;
    let mut low = above;
    for i in (0..levels).rev() {
        let at = tgt::first_word(base, row[i], x, i);
        let r = decode_node(words, src, bio, at, low, threshold);
        bio = r.bio;
        low = r.low;
    }
    bio
}

// The root stands apart: it has no low over it.
pub fn decode_path(
    words: &mut [u32],
    src: &[u8],
    b: Bio,
    base: usize,
    row: &[usize; 7],
    depth: usize,
    x: usize,
    threshold: u32,
) -> Bio
    requires { (b.ct ≤ 8) × (PathIn (length words.old) base row.now depth x) }
    ensures { path_read words.new result
        ≡ read_path src.now base threshold (reverse (path_over row.now depth x)) 0 words.old b }
{
    let top = depth - 1;
    let at = tgt::first_word(base, row[top], x, top);
    let r = decode_node(words, src, b, at, 0, threshold);
    decode_below(words, src, r.bio, base, row, top, x, threshold, r.low)
}

pub fn opj_tgt_decode(
    words: &mut [u32],
    src: &[u8],
    b: Bio,
    base: usize,
    row: &[usize; 7],
    depth: usize,
    x: usize,
    threshold: u32,
) -> LeafRead
    requires { (b.ct ≤ 8) × (PathIn (length words.old) base row.now depth x) }
    ensures { leaf_after words.new result
        ≡ below_in threshold (leaf_word base row.now x)
        (read_path src.now base threshold (reverse (path_over row.now depth x)) 0 words.old b) }
{
    let bio = decode_path(words, src, b, base, row, depth, x, threshold);
    let value = tgt::leaf_value(words, base, row, depth, x);
    LeafRead {
        below: value < threshold,
        bio,
    }
}
