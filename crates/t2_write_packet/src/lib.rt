// The packet less its body, and the body after it: stored where the output has room.
#![tactic(auto)]

ghost use Rattle.std.specs.Prelude.{◌≡◌, cond, [], ◌+◌, ◌^◌, ◌≤◌, leb, length};
ghost use Rattle.t800.specs.MarkerSegments.{sop_bytes, eph_bytes};
ghost use Rattle.t800.specs.WriteHeader.{contribution};
ghost use Rattle.t2_refusal_laws.specs.Refusals.{measure_refusal_for};
ghost use Rattle.t2_write_header.specs.Header.{header_coded};
ghost use Rattle.t2_write_packet.specs.Front.{bytes_put, put_bytes, put_front};

use t800::Markers;
use tcd_style::Marker;

// The place after it.
fn put_sop(out: &mut [u8], used: bool, number: u32) -> usize
    ensures { bytes_put out.new result ≡ put_bytes (bytes_put out.old 0) (cond used (sop_bytes number) []) }
{
    if !used {
        return 0;
    }
    bio_bytes::store(out, 0, Marker::FIRST);
    bio_bytes::store(out, 1, Marker::SOP.second);
    bio_bytes::store(out, 2, 0);
    bio_bytes::store(out, 3, Marker::LSOP);
    bio_bytes::store(out, 4, ((number >> 8) & 0xff) as u8);
    bio_bytes::store(out, 5, (number & 0xff) as u8);
    Marker::SOP.bytes
}

fn put_eph(out: &mut [u8], used: bool, at: usize) -> usize
    requires { at ≤ 2 ^ 53 }
    ensures { bytes_put out.new result ≡ put_bytes (bytes_put out.old at) (cond used eph_bytes []) }
{
    if !used {
        return at;
    }
    bio_bytes::store(out, at, Marker::FIRST);
    bio_bytes::store(out, at + 1, Marker::EPH.second);
    at + Marker::EPH.bytes
}

// SOP, header and EPH; the scratch becomes the state after them. The state is copied here, and not by the callers, so that a packet of a
// layer takes the same loop as a single one.
pub fn put_front(
    state: &[u32],
    scratch: &mut [u32],
    output: &mut [u8],
    counts: &[u32],
    lengths: &[u32],
    marks: &[u8],
    markers: Markers,
    number: u32,
) -> usize
    requires { measure_refusal_for state.now (length scratch.old) (contribution counts.now lengths.now marks.now) ≡ 0 }
    ensures { header_coded scratch.new output.new result
        ≡ put_front (contribution counts.now lengths.now marks.now) state.now markers
        number output.old }
{
    lists::copy(state, scratch);
    let start = put_sop(output, markers.sop, number);
    let end = t2_write_header::encode_header(scratch, output, start, counts, lengths, marks);
    put_eph(output, markers.eph, end)
}

// An output of so many bytes, for both parts of a packet.
pub fn has_room(bytes: usize, front: usize, body: usize) -> bool
    ensures { result ≡ leb (front + body) bytes }
{
    if bytes < front {
        return false;
    }
    body <= bytes - front
}

pub fn put_body(out: &mut [u8], at: usize, body: &[u8]) -> usize
    requires { at + length body.now ≤ length out.old }
    ensures { bytes_put out.new result ≡ put_bytes (bytes_put out.old at) body.now }
{
    let end = at + body.len();
    lists::copy(body, &mut out[at..end]);
    end
}
