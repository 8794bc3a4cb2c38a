// A block's segments in one layer, one after another, and the widths of their length fields (t2.rs).
#![tactic(auto)]

ghost use Rattle.std.specs.Prelude.{◌≡◌, false, ◌-◌, ◌≤◌, length, drop};
ghost use Rattle.t800.specs.Segments.{segments_of, width, bit_length, increment};
ghost use Rattle.t2_segments.specs.Segments.{segment, first_segment, PassLists, bits_before, any_too_long};

// Passes that one length field stands for.
#[derive(Clone, Copy)]
pub struct CodedSegment {
    pub passes: u32,
    pub bytes: u64,
}

// The segment that begins at a pass: up to the first terminated one, or the last.
pub fn segment_at(lengths: &[u32], marks: &[u8], at: usize) -> CodedSegment
    requires { PassLists lengths.now marks.now × (at ≤ length lengths.now) }
    ensures { segment result.passes result.bytes ≡ first_segment (drop at lengths.now) (drop at marks.now) }
{
    let mut passes = 0;
    let mut bytes = 0;
    for i in at..lengths.len() {
        passes += 1;
        bytes += u64::from(lengths[i]);
        if marks[i] != 0 {
            return CodedSegment { passes, bytes };
        }
    }
    CodedSegment { passes, bytes }
}

// ---- widths

// The sum of a block's length bits and an increment may pass 32 bits: nothing here asks how large they are.
pub fn field_width(length_bits: u64, passes: u32) -> u64
    requires { length_bits ≤ 8589934592 }
    ensures { result ≡ width length_bits passes }
{
    length_bits + u64::from(math::opj_uint_floorlog2(passes))
}

fn bit_length(bytes: u32) -> u32
    ensures { result ≡ bit_length bytes }
{
    1 + math::opj_uint_floorlog2(bytes)
}

// The bits by which a segment's length is wider than its field.
pub fn bits_missing(bytes: u32, passes: u32, length_bits: u32) -> u32
    ensures { result ≡ bit_length bytes - width length_bits passes }
{
    let given = field_width(u64::from(length_bits), passes);
    u64::from(bit_length(bytes)).saturating_sub(given) as u32
}

// The increment of a block's length bits.
pub fn segment_increment(lengths: &[u32], marks: &[u8], length_bits: u32) -> u32
    requires { PassLists lengths.now marks.now × (any_too_long (segments_of lengths.now marks.now) ≡ false) }
    ensures { result ≡ increment length_bits (segments_of lengths.now marks.now) }
{
    let mut most = 0;
    let mut at = 0;
    while at < lengths.len() {
        let s = segment_at(lengths, marks, at);
        let missing = bits_missing(s.bytes as u32, s.passes, length_bits);
        most = math::opj_uint_max(most, missing);
        at += s.passes as usize;
    }
    most
}

// A block's length bits as the packet begins.
pub fn length_bits_before(so_far: u32, length_bits: u32) -> u32
    ensures { result ≡ bits_before so_far length_bits }
{
    if so_far == 0 { 3 } else { length_bits }
}
