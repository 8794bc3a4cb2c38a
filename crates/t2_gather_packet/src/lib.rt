// One packet of a row gathered: its header put into segments, SOP and body behind those before them, and its reader's state moved on.
#![tactic(auto)]

ghost use Rattle.std.specs.Prelude.{Ok, ◌≡◌, true, not, ◌||◌, ◌+◌, ◌*◌, ◌^◌, ◌<◌, ◌≤◌, length, take, drop, ltb};
ghost use Rattle.std.proofs.lemmas.List.Edits.{sets};
ghost use Rattle.t800.specs.State.{reader};
ghost use Rattle.t800.specs.Ranges.{valid_state};
ghost use Rattle.t800.specs.PackedHeaders.{most_bytes, most_segments, segments_for};
ghost use Rattle.t2_pack_headers.specs.Packing.{packed_length, put_header};
ghost use Rattle.t2_skip_packet.specs.Parts.{number_in, skipped};
ghost use Rattle.t2_gather_packet.specs.Moving.{sizes_refusal, body_parts, GathersPacket};

use t2_pack_headers::MOST_OF_ALL;
use t2_skip_packet::Parts;
use t800::{Markers, Refusal};

// Where a move stands: bytes of the row taken, header bytes and other bytes put.
#[derive(Clone, Copy)]
pub struct Moved {
    pub taken: usize,
    pub headers: usize,
    pub bodies: usize,
}

// ---- 10, 15, 11

// Whether these header bytes are too many behind those before them.
fn needs_more_segments(p: Parts, g: Moved) -> bool
    requires { g.headers ≤ most_segments * most_bytes }
    ensures { result ≡ ltb most_segments (segments_for (g.headers + p.header)) }
{
    if MOST_OF_ALL < p.header {
        return true;
    }
    t2_pack_headers::needs_more_segments(g.headers + p.header)
}

// Whether header bytes and the others have room behind those before them.
fn has_room(p: Parts, g: Moved, headers_room: usize, bodies_room: usize) -> bool
    requires { (g.headers + p.header ≤ most_segments * most_bytes) × (g.bodies ≤ bodies_room) × (p.sop + p.body < 2 ^ 64) }
    ensures { result
        ≡ not (ltb headers_room (packed_length (g.headers + p.header)) || ltb bodies_room (g.bodies + p.sop + p.body)) }
{
    let count = g.headers + p.header;
    let bytes = t2_pack_headers::packed_length(count);
    if headers_room < bytes {
        return false;
    }
    let sop = p.sop as u64;
    let left = bodies_room - g.bodies;
    sop + p.body <= left as u64
}

fn sizes_fit(
    p: Parts,
    g: Moved,
    left: usize,
    headers_room: usize,
    bodies_room: usize,
) -> Result<(), Refusal>
    requires { (g.headers ≤ most_segments * most_bytes) × (g.bodies ≤ bodies_room) }
    ensures { number_in result ≡ sizes_refusal (skipped (Ok p)) g left headers_room bodies_room }
{
    if !p.end_within(left) {
        return Err(Refusal::Body);
    }
    if needs_more_segments(p, g) {
        return Err(Refusal::Segments);
    }
    if !has_room(p, g, headers_room, bodies_room) {
        return Err(Refusal::Space);
    }
    Ok(())
}

// ---- the bytes

// SOP and the body, from the packet in front of `row`.
fn put_bodies(row: &[u8], p: Parts, bodies: &mut [u8], at: usize)
    requires { (p.sop + p.header + p.body ≤ length row.now) × (at + p.sop + p.body ≤ length bodies.old) }
    ensures { bodies.new ≡ sets bodies.old at (body_parts (skipped (Ok p)) row.now) }
{
    let sop = p.sop;
    let end = t2_write_packet::put_body(bodies, at, &row[..sop]);
    let start = sop + p.header;
    let stop = start + p.body as usize;
    t2_write_packet::put_body(bodies, end, &row[start..stop]);
}

// The packet in front of what is left of the row. After a refusal the lists hold anything.
pub fn gather_packet(
    row: &[u8],
    words: &mut [u32],
    m: Markers,
    headers: &mut [u8],
    bodies: &mut [u8],
    g: Moved,
) -> Result<Moved, Refusal>
    requires { (valid_state reader words.old (length words.old) ≡ true) × (g.taken + length row.now < 2 ^ 64)
        × (g.headers ≤ most_segments * most_bytes) × (g.bodies ≤ length bodies.old) }
    ensures { GathersPacket row.now m words.old headers.old bodies.old g
        words.new headers.new bodies.new result }
{
    let p = t2_skip_packet::opj_t2_skip_packet(words, row, m)?;
    sizes_fit(p, g, row.len(), headers.len(), bodies.len())?;
    let sop = p.sop;
    let end = sop + p.header;
    let count = g.headers;
    t2_pack_headers::put_header(headers, count, &row[sop..end]);
    let at = g.bodies;
    put_bodies(row, p, bodies, at);
    let body = p.body as usize;
    Ok(Moved {
        taken: g.taken + (end + body),
        headers: count + p.header,
        bodies: at + (sop + body),
    })
}
