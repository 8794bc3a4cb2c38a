// Header bytes put into PPT marker segments as they come (T.800, A.7.5).
#![tactic(auto)]

ghost use Rattle.std.specs.Prelude.{◌≡◌, ◌+◌, ◌-◌, ◌*◌, ◌≤◌, ◌<◌, length, ltb};
ghost use Rattle.std.proofs.lemmas.List.Edits.{sets};
ghost use Rattle.t800.specs.PackedHeaders.{most_bytes, most_segments, segments_for};
ghost use Rattle.t2_pack_headers.specs.Packing.{opening, packed_length, place_of, put_byte, put_header, closed, bytes_put};

// The most header bytes of one segment, and of all segments.
const MOST_BYTES: usize = 65532;

pub const MOST_OF_ALL: usize = 256 * MOST_BYTES;

// The bytes of a segment before its header bytes.
pub const FRONT: usize = 5;

// How many header bytes are put, where the next one goes, and how many more the last segment takes.
#[derive(Clone, Copy)]
struct Place {
    count: usize,
    at: usize,
    left: usize,
}

// ---- how many

fn segments_for(count: usize) -> usize
    requires { count ≤ most_segments * most_bytes }
    ensures { result ≡ segments_for count }
{
    count.div_ceil(MOST_BYTES)
}

// The bytes of the segments of so many header bytes.
pub fn packed_length(count: usize) -> usize
    requires { count ≤ most_segments * most_bytes }
    ensures { result ≡ count + 5 * segments_for count }
{
    let segments = segments_for(count);
    count + FRONT * segments
}

pub fn needs_more_segments(count: usize) -> bool
    ensures { result ≡ ltb most_segments (segments_for count) }
{
    MOST_OF_ALL < count
}

// ---- header bytes put

fn place_of(count: usize) -> Place
    requires { count ≤ most_segments * most_bytes }
    ensures { result ≡ place_of count }
{
    let segments = segments_for(count);
    Place {
        count,
        at: count + FRONT * segments,
        left: segments * MOST_BYTES - count,
    }
}

// The front of a segment, with the length field of a filled one.
fn open_segment(headers: &mut [u8], at: usize, index: u8)
    requires { at + 5 ≤ length headers.old }
    ensures { headers.new ≡ sets headers.old at (opening index) }
{
    headers[at] = 0xff;
    headers[at + 1] = 0x61;
    headers[at + 2] = 0xff;
    headers[at + 3] = 0xff;
    headers[at + 4] = index;
}

fn put_byte(headers: &mut [u8], p: Place, byte: u8) -> Place
    requires { (p.at ≡ packed_length p.count)
        × (p.left ≡ segments_for p.count * most_bytes - p.count)
        × (packed_length (p.count + 1) ≤ length headers.old)
        × (p.count < most_segments * most_bytes) }
    ensures { bytes_put headers.new result ≡ bytes_put (put_byte headers.old p.count byte) (place_of (p.count + 1)) }
{
    let at = p.at;
    if p.left != 0 {
        headers[at] = byte;
        return Place {
            count: p.count + 1,
            at: at + 1,
            left: p.left - 1,
        };
    }
    let index = p.count / MOST_BYTES;
    open_segment(headers, at, index as u8);
    headers[at + FRONT] = byte;
    Place {
        count: p.count + 1,
        at: at + FRONT + 1,
        left: MOST_BYTES - 1,
    }
}

// Bytes behind the first `count` ones.
pub fn put_header(headers: &mut [u8], count: usize, bytes: &[u8])
    requires { (packed_length (count + length bytes.now) ≤ length headers.old)
        × (count + length bytes.now ≤ most_segments * most_bytes) }
    ensures { headers.new ≡ put_header headers.old count bytes.now }
{
    let mut p = place_of(count);
    for &byte in bytes {
        p = put_byte(headers, p, byte);
    }
}

// ---- the last length field

// The length field of the last segment, where it isn't filled.
pub fn close_segments(headers: &mut [u8], count: usize)
    requires { (packed_length count ≤ length headers.old) × (count ≤ most_segments * most_bytes) }
    ensures { headers.new ≡ closed headers.old count }
{
    let last = count % MOST_BYTES;
    if last != 0 {
        let at = count / MOST_BYTES * (FRONT + MOST_BYTES);
        let field = 3 + last;
        headers[at + 2] = (field / 256) as u8;
        headers[at + 3] = (field % 256) as u8;
    }
}
