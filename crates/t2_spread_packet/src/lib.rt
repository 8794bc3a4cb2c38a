// One packet moved back: its header out of the segments, behind SOP and in front of the body, and its reader's state moved on.
#![tactic(auto)]

ghost use Rattle.std.specs.Prelude.{Ok, ◌≡◌, true, ◌+◌, ◌^◌, ◌<◌, ◌≤◌, length};
ghost use Rattle.t800.specs.State.{reader};
ghost use Rattle.t800.specs.Ranges.{valid_state};
ghost use Rattle.t800.specs.PackedHeaders.{unpacked};
ghost use Rattle.t2_unpack_headers.specs.Cursors.{CursorAt};
ghost use Rattle.t2_skip_packet.specs.Parts.{number_in, skipped};
ghost use Rattle.t2_spread_packet.specs.Moving.{sizes_refusal, HeaderPut, PacketPut, moved_on, StandsAt, SpreadsPacket};

use t2_skip_packet::Parts;
use t2_unpack_headers::Cursor;
use t800::{Markers, Refusal};

// Where a move stands: header bytes and other bytes taken, bytes of the row put, the window's first header byte, and the segment of the
// last header.
#[derive(Clone, Copy)]
pub struct Moved {
    pub headers: usize,
    pub bodies: usize,
    pub row: usize,
    pub base: usize,
    pub segment: Cursor,
}

// ---- 10, 11

// Of a packet with so many bytes left of the bodies and `put` of so many bytes of the row.
fn sizes_fit(p: Parts, left: usize, put: usize, room: usize) -> Result<(), Refusal>
    requires { put ≤ room }
    ensures { number_in result ≡ sizes_refusal (skipped (Ok p)) left put room }
{
    let beside = Parts { header: 0, ..p };
    if !beside.end_within(left) {
        return Err(Refusal::Body);
    }
    if !p.end_within(room - put) {
        return Err(Refusal::Space);
    }
    Ok(())
}

// ---- the bytes

// n header bytes from `from` on; the answer is the segment that holds the first of them.
fn put_header(
    segments: &[u8],
    c: Cursor,
    from: usize,
    n: usize,
    row: &mut [u8],
    at: usize,
) -> Cursor
    requires { (CursorAt segments.now c) × (c.before ≤ from) × (from + n ≤ length (unpacked segments.now).bytes)
        × (at + n ≤ length row.old) }
    ensures { HeaderPut segments.now from n row.old at row.new result }
{
    let here = t2_unpack_headers::seek(segments, c, from);
    let end = at + n;
    t2_unpack_headers::copy_headers(segments, here, from, &mut row[at..end]);
    here
}

// SOP and body are in front of `bodies`.
fn put_packet(segments: &[u8], bodies: &[u8], p: Parts, g: Moved, row: &mut [u8]) -> Cursor
    requires { (CursorAt segments.now g.segment) × (g.segment.before ≤ g.headers)
        × (g.headers + p.header ≤ length (unpacked segments.now).bytes) × (p.sop + p.body ≤ length bodies.now)
        × (g.row + (p.sop + p.header + p.body) ≤ length row.old) }
    ensures { PacketPut segments.now bodies.now (skipped (Ok p)) g row.old row.new result }
{
    let sop = p.sop;
    let at = t2_write_packet::put_body(row, g.row, &bodies[..sop]);
    let segment = put_header(segments, g.segment, g.headers, p.header, row, at);
    let end = at + p.header;
    let stop = sop + p.body as usize;
    t2_write_packet::put_body(row, end, &bodies[sop..stop]);
    segment
}

// Behind a packet with these parts.
fn moved_on(g: Moved, p: Parts, base: usize, segment: Cursor) -> Moved
    requires { (g.headers + p.header < 2 ^ 64) × (g.bodies + (p.sop + p.body) < 2 ^ 64)
        × (g.row + (p.sop + p.header + p.body) < 2 ^ 64) }
    ensures { result ≡ moved_on g (skipped (Ok p)) base segment }
{
    let body = p.body as usize;
    Moved {
        headers: g.headers + p.header,
        bodies: g.bodies + (p.sop + body),
        row: g.row + (p.sop + p.header + body),
        base,
        segment,
    }
}

// The packet whose header is next; `plain` is how many header bytes there are, and `bodies` what is left of them. After a refusal the
// lists hold anything.
pub fn spread_packet(
    segments: &[u8],
    plain: usize,
    bodies: &[u8],
    words: &mut [u32],
    m: Markers,
    window: &mut [u8],
    row: &mut [u8],
    g: Moved,
) -> Result<Moved, Refusal>
    requires { (valid_state reader words.old (length words.old) ≡ true) × (StandsAt segments.now window.old g)
        × (plain ≡ length (unpacked segments.now).bytes) × (g.bodies + length bodies.now < 2 ^ 64) × (g.row ≤ length row.old) }
    ensures { SpreadsPacket segments.now bodies.now m words.old row.old g
        words.new window.new row.new result }
{
    let s = t2_skip_gathered::skip_gathered(
        words, segments, plain, g.headers, bodies, m, window, g.base,
    );
    let p = s.parts?;
    sizes_fit(p, bodies.len(), g.row, row.len())?;
    let segment = put_packet(segments, bodies, p, g, row);
    Ok(moved_on(g, p, s.base, segment))
}
