// One block's segments (t2.rs): whether one is too long, or its length field too wide.
#![tactic(auto)]

ghost use Rattle.std.specs.Prelude.{◌≡◌, Bool, false, ◌≤◌};
ghost use Rattle.t800.specs.Base.{any};
ghost use Rattle.t800.specs.Segments.{Segment, segments_of};
ghost use Rattle.t2_segments.specs.declared.CodedSegment.{CodedSegment};
ghost use Rattle.t2_segments.specs.Segments.{PassLists, segment, bits_before, any_too_long, any_too_wide, block_too_wide};

use t2_segments::CodedSegment;

// Whether a block has a segment that meets the test.
fn any_segment<F: Fn(CodedSegment) -> bool>(lengths: &[u32], marks: &[u8], meets: F) -> bool
    ghost test: { Segment → Bool }
    requires lists { PassLists lengths.now marks.now }
    requires callable { (s : CodedSegment) → F.pre meets s }
    requires tests { (s : CodedSegment) (r : Bool) → F.post meets s r → r ≡ test (segment s.passes s.bytes) }
    ensures { result ≡ any test (segments_of lengths.now marks.now) }
{
    let mut at = 0;
    while at < lengths.len() {
        let s = t2_segments::segment_at(lengths, marks, at);
        if meets(s) {
            return true;
        }
        at += s.passes as usize;
    }
    false
}

pub fn any_segment_too_long(lengths: &[u32], marks: &[u8]) -> bool
    requires { PassLists lengths.now marks.now }
    ensures { result ≡ any_too_long (segments_of lengths.now marks.now) }
{
    any_segment(lengths, marks, |s| 0x8000_0000 <= s.bytes)
}

fn any_field_too_wide(lengths: &[u32], marks: &[u8], length_bits: u64) -> bool
    requires { PassLists lengths.now marks.now × (length_bits ≤ 8589934592) }
    ensures { result ≡ any_too_wide length_bits (segments_of lengths.now marks.now) }
{
    any_segment(
        lengths,
        marks,
        |s| 32 < t2_segments::field_width(length_bits, s.passes),
    )
}

pub fn block_too_wide(so_far: u32, length_bits: u32, lengths: &[u32], marks: &[u8]) -> bool
    requires { PassLists lengths.now marks.now × (any_too_long (segments_of lengths.now marks.now) ≡ false) }
    ensures { result ≡ block_too_wide (bits_before so_far length_bits) (segments_of lengths.now marks.now) }
{
    let before = t2_segments::length_bits_before(so_far, length_bits);
    let more = t2_segments::segment_increment(lengths, marks, before);
    any_field_too_wide(lengths, marks, before as u64 + more as u64)
}
