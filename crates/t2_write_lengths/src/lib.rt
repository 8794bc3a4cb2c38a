// The lengths of a block's segments, coded.
#![tactic(auto)]

ghost use Rattle.std.specs.Prelude.{◌≡◌, false, [], ◌∷◌, ◌^◌, ◌<◌, ◌≤◌, T, length};
ghost use Rattle.t800.specs.Segments.{segments_of, length_fields};
ghost use Rattle.bio_bytes.specs.Writing.{output, put_bits, FreeBitsClear};
ghost use Rattle.t2_write_codes.specs.PassTable.{is_pass_table};
ghost use Rattle.t2_segments.specs.Segments.{segment, any_too_wide, block_too_wide};
ghost use Rattle.t2_write_lengths.specs.Lengths.{BlockPasses, lengths_put, put_lengths};

use t2_segments::CodedSegment;
use t800::Bio;

// A block's new length bits, and where the bits stand.
#[derive(Clone, Copy)]
pub struct LengthsPut {
    pub bits: u32,
    pub bio: Bio,
}

// One length per segment.
fn code_lengths(out: &mut [u8], b: Bio, lengths: &[u32], marks: &[u8], lenbits: u32) -> Bio
    requires { (FreeBitsClear b) × (BlockPasses lengths.now marks.now)
        × (any_too_wide lenbits (segments_of lengths.now marks.now) ≡ false) }
    ensures { output out.new result
        ≡ put_bits (output out.old b) (length_fields lenbits (segments_of lengths.now marks.now)) }
{
    let mut bio = b;
    let mut i: usize = 0;
    while i < lengths.len() {
        let s = t2_segments::segment_at(lengths, marks, i);
        let bytes = s.bytes as u32;
        let bits = t2_segments::field_width(lenbits as u64, s.passes);
        bio = bio_write::opj_bio_write(out, bio, bytes, bits as u32);
        i += s.passes as usize;
    }
    bio
}

// Of any number of segments.
fn put_all_lengths(
    codes: &[u16; 328],
    out: &mut [u8],
    b: Bio,
    before: u32,
    count: u32,
    lengths: &[u32],
    marks: &[u8],
) -> LengthsPut
    requires { (T (is_pass_table codes.now)) × (FreeBitsClear b) × (1 ≤ count) × (count ≡ length lengths.now)
        × (BlockPasses lengths.now marks.now) × (before ≤ 32)
        × (block_too_wide before (segments_of lengths.now marks.now) ≡ false) }
    ensures { lengths_put out.new result
        ≡ put_lengths (output out.old b) before count (segments_of lengths.now marks.now) }
{
    let more = t2_segments::segment_increment(lengths, marks, before);
    let lenbits = before + more;
    let counted = t2_write_codes::put_pass_codeword(codes, out, b, count);
    let widened = t2_write_codes::opj_t2_putcommacode(out, counted, more);
    let bio = code_lengths(out, widened, lengths, marks, lenbits);
    LengthsPut { bits: lenbits, bio }
}

// Of one segment, which is looked at once.
fn put_one_length(
    codes: &[u16; 328],
    out: &mut [u8],
    b: Bio,
    before: u32,
    count: u32,
    s: CodedSegment,
) -> LengthsPut
    requires { (T (is_pass_table codes.now)) × (FreeBitsClear b) × (1 ≤ count) × (count ≤ 164) × (before ≤ 32) × (s.bytes < 2 ^ 31)
        × (block_too_wide before (segment s.passes s.bytes ∷ []) ≡ false) }
    ensures { lengths_put out.new result
        ≡ put_lengths (output out.old b) before count (segment s.passes s.bytes ∷ []) }
{
    let bytes = s.bytes as u32;
    let more = t2_segments::bits_missing(bytes, s.passes, before);
    let lenbits = before + more;
    let width = t2_segments::field_width(lenbits as u64, s.passes);
    let counted = t2_write_codes::put_pass_codeword(codes, out, b, count);
    let widened = t2_write_codes::opj_t2_putcommacode(out, counted, more);
    let bio = bio_write::opj_bio_write(out, widened, bytes, width as u32);
    LengthsPut { bits: lenbits, bio }
}

// Pass count, increment of the length bits, lengths.
pub fn put_lengths(
    codes: &[u16; 328],
    out: &mut [u8],
    b: Bio,
    before: u32,
    count: u32,
    lengths: &[u32],
    marks: &[u8],
) -> LengthsPut
    requires { (T (is_pass_table codes.now)) × (FreeBitsClear b) × (1 ≤ count) × (count ≡ length lengths.now)
        × (BlockPasses lengths.now marks.now) × (before ≤ 32)
        × (block_too_wide before (segments_of lengths.now marks.now) ≡ false) }
    ensures { lengths_put out.new result
        ≡ put_lengths (output out.old b) before count (segments_of lengths.now marks.now) }
{
    let first = t2_segments::segment_at(lengths, marks, 0);
    if first.passes == count {
        return put_one_length(codes, out, b, before, count, first);
    }
    put_all_lengths(codes, out, b, before, count, lengths, marks)
}
