// The parts of a block in a packet header (opj_t2_encode_packet of t2.rs): its inclusion, its zero planes, its passes and their lengths.
#![tactic(auto)]

ghost use Rattle.std.specs.Prelude.{◌≡◌, ◌+◌, ◌<◌, ◌≤◌, T, length, get_or};
ghost use Rattle.t800.specs.WriteHeader.{code_inclusion, code_zero_planes, code_passes};
ghost use Rattle.t800.specs.Segments.{segments_of};
ghost use Rattle.bio_bytes.specs.Writing.{output, FreeBitsClear};
ghost use Rattle.t2_write_codes.specs.PassTable.{is_pass_table};
ghost use Rattle.tgt_write.specs.Coding.{leaf_coded, put_coded};
ghost use Rattle.t2_write_lengths.specs.Blocks.{PassesFit};
ghost use Rattle.tcd_places.specs.Places.{BlockIn, block_at, block_in};
ghost use Rattle.t800.specs.State.{not_yet_included};

use t800::Bio;
use tcd_places::Place;

pub fn code_passes(
    codes: &[u16; 328],
    words: &mut [u32],
    out: &mut [u8],
    b: Bio,
    at: usize,
    count: u32,
    lengths: &[u32],
    marks: &[u8],
) -> Bio
    requires { (T (is_pass_table codes.now)) × (FreeBitsClear b) × (at + 3 < length words.old) × (1 ≤ count)
        × (PassesFit (get_or words.old at 0) (get_or words.old (at + 1) 0) count lengths.now marks.now) }
    ensures { leaf_coded words.new out.new result
        ≡ put_coded (output out.old b)
        (code_passes (block_at at) count (segments_of lengths.now marks.now) words.old) }
{
    let before = t2_segments::length_bits_before(words[at], words[at + 1]);
    let r = t2_write_lengths::put_lengths(codes, out, b, before, count, lengths, marks);
    let passes = words[at] + count;
    words[at] = passes;
    words[at + 1] = r.bits;
    r.bio
}

// By tree until first included, then one bit.
pub fn code_inclusion(
    words: &mut [u32],
    out: &mut [u8],
    b: Bio,
    p: Place,
    row: &[usize; 7],
    layer: u32,
    count: u32,
) -> Bio
    requires { (FreeBitsClear b) × (BlockIn (length words.old) p row.now) × (layer < not_yet_included) }
    ensures { leaf_coded words.new out.new result
        ≡ put_coded (output out.old b) (code_inclusion layer (block_in p row.now 0) count words.old) }
{
    let at = p.at;
    if words[at] == 0 {
        return tgt_write::opj_tgt_encode(words, out, b, p.incl, row, p.depth, p.x, layer + 1);
    }
    bio_write_lent::bit_out(out, b, u32::from(0 < count))
}

// At first inclusion.
pub fn code_zero_planes(
    words: &mut [u32],
    out: &mut [u8],
    b: Bio,
    p: Place,
    row: &[usize; 7],
) -> Bio
    requires { (FreeBitsClear b) × (BlockIn (length words.old) p row.now) }
    ensures { leaf_coded words.new out.new result
        ≡ put_coded (output out.old b) (code_zero_planes (block_in p row.now 0) words.old) }
{
    let at = p.at;
    if words[at] == 0 {
        return tgt_write::opj_tgt_encode(
            words,
            out,
            b,
            p.zero,
            row,
            p.depth,
            p.x,
            tcd_style::NOT_YET_PLANES,
        );
    }
    b
}
