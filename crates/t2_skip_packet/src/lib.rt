// A packet in front of a row (opj_t2_skip_packet of t2.rs): its reader's state moved on in place, and how many bytes its parts have.
#![tactic(auto)]

ghost use Rattle.std.specs.Prelude.{◌≡◌, true, not, ◌+◌, ◌<◌, ◌≤◌, length, ltb};
ghost use Rattle.t800.specs.RefusalNumbers.{word_of};
ghost use Rattle.t800.specs.State.{reader, layer, not_yet_included};
ghost use Rattle.t800.specs.Ranges.{valid_state};
ghost use Rattle.t800.specs.Bits.{reach};
ghost use Rattle.t800.specs.Gathered.{parts_in_row};
ghost use Rattle.bio_read.specs.Reading.{decoded};
ghost use Rattle.t2_read_segments.specs.Reading.{BitsIn};
ghost use Rattle.t2_skip_packet.specs.Parts.{SkipsPacket, skipped, SkipsFrom, header_bytes};

use bio_read::Decoded;
use t800::{Bio, Markers, Refusal};
use tcd_style::Marker;

// Bytes of SOP, of the header with EPH, and of the body.
#[derive(Clone, Copy)]
pub struct Parts {
    pub sop: usize,
    pub header: usize,
    pub body: u64,
}

impl Parts {
    // Whether they end within so many bytes.
    pub fn end_within(self, left: usize) -> bool
        ensures { result ≡ not (ltb left (self.sop + self.header + self.body)) }
    {
        if left < self.sop {
            return false;
        }
        let behind = left - self.sop;
        if behind < self.header {
            return false;
        }
        self.body <= (behind - self.header) as u64
    }
}

// The refusal with this number.
pub fn refusal_of(number: u32) -> Option<Refusal>
    requires { number ≤ 12 }
    ensures { word_of result ≡ number }
{
    match number {
        0 => None,
        1 => Some(Refusal::Shape),
        2 => Some(Refusal::Style),
        3 => Some(Refusal::List),
        4 => Some(Refusal::Planes),
        5 => Some(Refusal::State),
        6 => Some(Refusal::Layers),
        7 => Some(Refusal::Passes),
        8 => Some(Refusal::Length),
        9 => Some(Refusal::Width),
        10 => Some(Refusal::Body),
        11 => Some(Refusal::Space),
        _ => Some(Refusal::HeaderEnd),
    }
}

// A header after its first bit, which may be all of it.
fn skip_from(words: &mut [u32], src: &[u8], first: Decoded) -> t2_skip_header::Skipped
    requires { (valid_state reader words.old (length words.old) ≡ true) × (layer words.old < not_yet_included)
        × (BitsIn src.now first.bio) }
    ensures { SkipsFrom src.now words.old (decoded first) words.new result }
{
    let b = first.bio;
    if first.value == 0 {
        return t2_skip_header::Skipped {
            bio: b,
            bytes: 0,
            refusal: 0,
        };
    }
    t2_skip_header::opj_t2_skip_packet_header(words, src, b)
}

// Of a header that begins at `start`.
fn header_bytes(src: &[u8], eph: bool, start: usize, b: Bio) -> usize
    requires { b.bp ≤ length src.now + reach }
    ensures { result ≡ header_bytes src.now eph start b }
{
    let end = bio_read_end::opj_bio_inalign(src, b);
    let after = end.bio;
    let at = after.bp;
    let e = t2_read_marks::read_marker(eph, Marker::EPH, src, at);
    let taken = at + e.skip;
    if taken < start {
        return 0;
    }
    taken - start
}

// The next layer of the state in `words`, which holds anything after a refusal.
pub fn opj_t2_skip_packet(words: &mut [u32], src: &[u8], m: Markers) -> Result<Parts, Refusal>
    requires { valid_state reader words.old (length words.old) ≡ true }
    ensures { SkipsPacket (parts_in_row words.old m src.now) words.new (skipped result) }
{
    let layer = words[3];
    if layer == tcd_style::NOT_YET_INCLUDED {
        return Err(Refusal::Layers);
    }
    let s = t2_read_marks::read_marker(m.sop, Marker::SOP, src, 0);
    let start = bio_read::opj_bio_init_dec(s.skip);
    let first = bio_read_lent::bit_in(src, start);
    let h = skip_from(words, src, first);
    if let Some(why) = refusal_of(h.refusal) {
        return Err(why);
    }
    words[3] = layer + 1;
    let header = header_bytes(src, m.eph, s.skip, h.bio);
    Ok(Parts {
        sop: s.skip,
        header,
        body: h.bytes,
    })
}
