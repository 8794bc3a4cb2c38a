// PPT marker segments looked at, and the header bytes in them copied out (T.800, A.7.5).
#![tactic(auto)]

ghost use Rattle.std.specs.Prelude.{◌≡◌, ◌+◌, ◌-◌, ◌≤◌, ◌<◌, length, drop};
ghost use Rattle.std.proofs.Math.Seq.{paste};
ghost use Rattle.t800.specs.PackedHeaders.{unpacked};
ghost use Rattle.t2_unpack_headers.specs.Segments.{field_at, FieldOf, held_at, size_at, LookedAt};
ghost use Rattle.t2_unpack_headers.specs.Cursors.{CursorAt, Sought};
ghost use Rattle.t2_unpack_headers.specs.Windows.{window_of, PiecesOf};

use t2_pack_headers::FRONT;
use t800::Refusal;

// A segment's place in the list, and the header bytes before it.
#[derive(Clone, Copy)]
pub struct Cursor {
    pub at: usize,
    pub before: usize,
}

// ---- one segment

// The length field.
fn field_at(segments: &[u8], at: usize) -> usize
    requires { at + 4 ≤ length segments.now }
    ensures { FieldOf segments.now at result }
{
    let high = usize::from(segments[at + 2]);
    let low = usize::from(segments[at + 3]);
    high * 256 + low
}

// How many bytes the segment has, where it is right.
fn size_at(segments: &[u8], index: usize, at: usize) -> Option<usize>
    requires { at ≤ length segments.now }
    ensures { result ≡ size_at segments.now index at }
{
    let left = segments.len() - at;
    if left < FRONT + 1 {
        return None;
    }
    let field = field_at(segments, at);
    if left < 2 + field {
        return None;
    }
    if field < 4 {
        return None;
    }
    if segments[at] != 0xff {
        return None;
    }
    if segments[at + 1] != 0x61 {
        return None;
    }
    if usize::from(segments[at + 4]) != index {
        return None;
    }
    Some(2 + field)
}

// How many header bytes a segment holds.
fn held_at(segments: &[u8], at: usize) -> usize
    requires { (at + 4 ≤ length segments.now) × (3 ≤ field_at segments.now at) }
    ensures { result ≡ held_at segments.now at }
{
    field_at(segments, at) - 3
}

// ---- all segments

// How many header bytes the segments hold.
pub fn unpack(segments: &[u8]) -> Result<usize, Refusal>
    ensures { LookedAt segments.now result }
{
    let mut at = 0;
    let mut index = 0;
    let mut bytes = 0;
    while at < segments.len() {
        let Some(size) = size_at(segments, index, at) else {
            return Err(Refusal::Packed);
        };
        at += size;
        bytes += size - FRONT;
        index += 1;
    }
    Ok(bytes)
}

// On to the segment that holds header byte `from`, or to the end of the list.
pub fn seek(segments: &[u8], c: Cursor, from: usize) -> Cursor
    requires { (CursorAt segments.now c) × (c.before ≤ from) }
    ensures { Sought segments.now from result }
{
    let mut at = c.at;
    let mut before = c.before;
    while at < segments.len() {
        let held = held_at(segments, at);
        let next = before + held;
        if from < next {
            return Cursor { at, before };
        }
        at += FRONT + held;
        before = next;
    }
    Cursor { at, before }
}

// ---- header bytes copied

// n bytes from `from` on to `at`. It stays a function, so that the compiler can't see that the lists lie apart, and makes no memcpy of it.
#[inline(never)]
fn copy_piece(segments: &[u8], from: usize, to: &mut [u8], at: usize, n: usize)
    requires { (from + n ≤ length segments.now) × (at + n ≤ length to.old) }
    ensures { to.new ≡ paste to.old at (drop from segments.now) n }
{
    let from_end = from + n;
    let end = at + n;
    lists::copy(&segments[from..from_end], &mut to[at..end]);
}

// The header bytes from `from` on, as many as there are: the first of them is in the segment at `place`.
fn copy_pieces(segments: &[u8], place: usize, before: usize, from: usize, to: &mut [u8]) -> usize
    requires { Sought segments.now from (record { at = place; before = before }) }
    ensures { PiecesOf (unpacked segments.now).bytes from (length to.old) to.new result }
{
    let mut at = place;
    let mut skip = from - before;
    let mut done = 0;
    while done < to.len() {
        if segments.len() <= at {
            return done;
        }
        let held = held_at(segments, at);
        let n = (held - skip).min(to.len() - done);
        let first = at + FRONT + skip;
        copy_piece(segments, first, to, done, n);
        done += n;
        at += FRONT + held;
        skip = 0;
    }
    done
}

// The header bytes from `from` on, and zeros behind the last one.
pub fn copy_headers(segments: &[u8], c: Cursor, from: usize, to: &mut [u8])
    requires { (CursorAt segments.now c) × (c.before ≤ from) }
    ensures { to.new ≡ window_of (unpacked segments.now).bytes from (length to.old) }
{
    let s = seek(segments, c, from);
    let done = copy_pieces(segments, s.at, s.before, from, to);
    lists::wipe(&mut to[done..]);
}
