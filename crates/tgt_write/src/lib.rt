// A tag tree's nodes coded on the way to a leaf (tgt.rs), into bits of a packet header.
// A tree of `depth` levels begins at the word `base`, and its leaf is in column x of the row that `row` was made for.
#![tactic(auto)]

ghost use Rattle.std.specs.Prelude.{◌≡◌, cond, ◌&&◌, reverse, ◌+◌, ◌-◌, ◌<◌, ◌≤◌, eqb, ltb, leb, length, get_or, replicate};
ghost use Rattle.t800.specs.TagTree.{code_path};
ghost use Rattle.bio_bytes.specs.Writing.{output, put_bits, FreeBitsClear};
ghost use Rattle.tgt.specs.Path.{path_over, PathIn};
ghost use Rattle.tgt_write.specs.Coding.{leaf_coded, put_coded, told, node_coded, code_from, code_node};

use t800::Bio;
use tgt::AfterNode;

// As many zeros at a time as the held byte has room for.
fn zeros(out: &mut [u8], b: Bio, n: u32) -> Bio
    requires { FreeBitsClear b }
    ensures { output out.new result ≡ put_bits (output out.old b) (replicate n 0) }
{
    let mut bio = b;
    let mut left = n;
    while bio.ct < left {
        left -= bio.ct;
        bio = bio_bytes::opj_bio_byteout(out, bio);
    }
    tgt::after_bits(bio, left)
}

// Whether a node's value is told: but for its low, its words stay as they are, and no bit is put.
fn nothing_to_tell(value: u32, known: u32, from: u32) -> bool
    ensures { result ≡ (leb value from && eqb known 1) }
{
    value <= from && known == 1
}

// The 1 that says that low has reached the value, once for a node; `at` is the place of its known.
fn tell(words: &mut [u32], out: &mut [u8], b: Bio, at: usize) -> Bio
    requires { (FreeBitsClear b) × (at < length words.old) }
    ensures { leaf_coded words.new out.new result ≡ told words.old (output out.old b) at }
{
    let known = words[at];
    words[at] = 1;
    if known == 0 {
        return bio_write_lent::bit_out(out, b, 1);
    }
    b
}

fn encode_from(
    words: &mut [u32],
    out: &mut [u8],
    b: Bio,
    at: usize,
    from: u32,
    threshold: u32,
) -> AfterNode
    requires { (FreeBitsClear b) × (at + 2 < length words.old) × (from < threshold) }
    ensures { node_coded words.new out.new result
        ≡ code_from threshold at from words.old (output out.old b) }
{
    let to = math::opj_uint_max(from, math::opj_uint_min(words[at], threshold));
    words[at + 1] = to;
    let bio = zeros(out, b, to - from);
    if threshold <= to {
        return AfterNode { low: to, bio };
    }
    let told = tell(words, out, bio, at + 2);
    AfterNode { low: to, bio: told }
}

// Whether a node has one bit to put: the threshold lies one above low, and the value isn't told.
fn one_bit(known: u32, from: u32, threshold: u32) -> bool
    requires { from < threshold }
    ensures { result ≡ (eqb known 0 && eqb (threshold - from) 1) }
{
    known == 0 && threshold - from == 1
}

// The node's one bit: a 0 raises low to the threshold, a 1 tells the value.
fn encode_one(words: &mut [u32], out: &mut [u8], b: Bio, at: usize, threshold: u32) -> AfterNode
    requires { (FreeBitsClear b) × (at + 2 < length words.old) × (1 ≤ threshold) × (get_or words.old (at + 2) 0 ≡ 0) }
    ensures { node_coded words.new out.new result
        ≡ code_from threshold at (threshold - 1) words.old (output out.old b) }
{
    let bit = u32::from(words[at] < threshold);
    let low = threshold - bit;
    words[at + 1] = low;
    words[at + 2] = bit;
    let bio = bio_write_lent::bit_out(out, b, bit);
    AfterNode { low, bio }
}

fn encode_above(
    words: &mut [u32],
    out: &mut [u8],
    b: Bio,
    at: usize,
    from: u32,
    threshold: u32,
) -> AfterNode
    requires { (FreeBitsClear b) × (at + 2 < length words.old) × (from < threshold) }
    ensures { node_coded words.new out.new result
        ≡ code_from threshold at from words.old (output out.old b) }
{
    if one_bit(words[at + 2], from, threshold) {
        return encode_one(words, out, b, at, threshold);
    }
    if nothing_to_tell(words[at], words[at + 2], from) {
        words[at + 1] = from;
        return AfterNode { low: from, bio: b };
    }
    encode_from(words, out, b, at, from, threshold)
}

fn encode_node(
    words: &mut [u32],
    out: &mut [u8],
    b: Bio,
    at: usize,
    low: u32,
    threshold: u32,
) -> AfterNode
    requires { (FreeBitsClear b) × (at + 2 < length words.old) }
    ensures { node_coded words.new out.new result
        ≡ code_node threshold at low words.old (output out.old b) }
{
    let from = math::opj_uint_max(low, words[at + 1]);
    if threshold <= from {
        words[at + 1] = from;
        return AfterNode { low: from, bio: b };
    }
    encode_above(words, out, b, at, from, threshold)
}

pub fn opj_tgt_encode(
    words: &mut [u32],
    out: &mut [u8],
    b: Bio,
    base: usize,
    row: &[usize; 7],
    depth: usize,
    x: usize,
    threshold: u32,
) -> Bio
    requires { (FreeBitsClear b) × (PathIn (length words.old) base row.now depth x) }
    ensures { leaf_coded words.new out.new result
        ≡ put_coded (output out.old b)
        (code_path base threshold (reverse (path_over row.now depth x)) 0 words.old) }
{
    let mut bio = b;
    let mut low = 0;
    for i in (0..depth).rev() {
        let at = tgt::first_word(base, row[i], x, i);
        let r = encode_node(words, out, bio, at, low, threshold);
        bio = r.bio;
        low = r.low;
    }
    bio
}
