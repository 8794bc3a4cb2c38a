// A packet skipped whose header lies in PPT marker segments: its reader's state moved on in place, and how many bytes its parts have.
#![tactic(auto)]

ghost use Rattle.std.specs.Prelude.{◌≡◌, true, cond, ◌&&◌, ◌+◌, ◌-◌, ◌%◌, ◌^◌, ◌<◌, ◌≤◌, min, eqb, length, drop};
ghost use Rattle.t800.specs.State.{reader, layer, not_yet_included};
ghost use Rattle.t800.specs.Ranges.{valid_state};
ghost use Rattle.t800.specs.PackedHeaders.{unpacked};
ghost use Rattle.t800.specs.Gathered.{parts_gathered};
ghost use Rattle.t2_skip_packet.specs.Parts.{SkipsPacket, skipped};
ghost use Rattle.t2_skip_windows.specs.Windows.{window_bytes, most_of_block, WindowOn, Somewhere};
ghost use Rattle.t2_skip_gathered.specs.Headers.{start_run, StandsBefore, first_in, SkipsAfter, SkipsUpTo, taken_of, EndsInWindow};

use t2_read_segments::Run;
use t2_skip_header::ROOM_FOR_ALL;
use t2_skip_packet::Parts;
use t2_skip_windows::{InWindow, LAST_PLACE};
use t800::{Markers, Refusal};
use tcd_style::Marker;

// The packet's parts, and the header byte with which the window begins, also after a refusal.
#[derive(Clone, Copy)]
pub struct SkippedGathered {
    pub parts: Result<Parts, Refusal>,
    pub base: usize,
}

#[derive(Clone, Copy)]
struct FirstBit {
    pub value: u32,
    pub stand: InWindow,
}

// ---- the first bit

fn start_run(place: usize) -> Run
    ensures { result ≡ start_run place }
{
    let bio = bio_read::opj_bio_init_dec(place);
    Run {
        bio,
        count: 0,
        room: ROOM_FOR_ALL,
        bytes: 0,
        refusal: 0,
    }
}

// Before header byte `at`, in the window as it is or filled anew.
fn stand_at(segments: &[u8], window: &mut [u8], at: usize, base: usize) -> InWindow
    requires { WindowOn segments.now window.old base }
    ensures { (WindowOn segments.now window.new result.base) × (StandsBefore at result) }
{
    if base <= at {
        let place = at - base;
        if place <= LAST_PLACE {
            let run = start_run(place);
            return InWindow { run, base };
        }
    }
    t2_skip_windows::fill_from(segments, window, at);
    let first = start_run(0);
    InWindow {
        run: first,
        base: at,
    }
}

fn first_bit(window: &[u8], s: InWindow) -> FirstBit
    requires { s.run.bio.ct ≤ 8 }
    ensures { result ≡ first_in window.now s }
{
    let run = s.run;
    let bit = bio_read_lent::bit_in(window, run.bio);
    let bio = bit.bio;
    let after = t2_read_block_parts::moved(run, bio);
    let stand = InWindow {
        run: after,
        base: s.base,
    };
    FirstBit {
        value: bit.value,
        stand,
    }
}

// ---- the blocks

// All of them, or none where the first bit is 0.
fn skip_after(
    words: &mut [u32],
    segments: &[u8],
    window: &mut [u8],
    s: InWindow,
    first: u32,
) -> InWindow
    requires { (valid_state reader words.old (length words.old) ≡ true) × (layer words.old < not_yet_included)
        × (WindowOn segments.now window.old s.base) × (Somewhere 0 words.old s) }
    ensures { SkipsAfter segments.now words.old s first window.new words.new result }
{
    if first == 0 {
        return s;
    }
    let bands = tcd_first_words::bands_of(words);
    let n = words[1] as usize;
    let layer = words[3];
    t2_skip_windows::skip_bands(words, segments, window, s, bands, n, layer)
}

// From the first bit on, up to where the header's end is looked at.
fn skip_header(
    words: &mut [u32],
    segments: &[u8],
    window: &mut [u8],
    at: usize,
    base: usize,
) -> InWindow
    requires { (valid_state reader words.old (length words.old) ≡ true) × (layer words.old < not_yet_included)
        × (WindowOn segments.now window.old base) × (at < 2 ^ 63) }
    ensures { SkipsUpTo segments.now words.old at window.new words.new result }
{
    let front = stand_at(segments, window, at, base);
    let first = first_bit(window, front);
    let stand = first.stand;
    let o = skip_after(words, segments, window, stand, first.value);
    if o.run.refusal != 0 {
        return o;
    }
    t2_skip_windows::fill(segments, window, o)
}

// ---- the header's end

// Of the bits up to a place, of so many bytes that are left: a byte FF takes the one after it along, and isn't the last one.
fn bytes_taken(buf: u32, place: usize, left: usize) -> Option<usize>
    requires { place + 1 < 2 ^ 64 }
    ensures { result ≡ taken_of buf place left }
{
    if (buf & 0xff) != 0xff {
        return Some(place.min(left));
    }
    if place == left {
        return None;
    }
    Some(place + 1)
}

// The header's bytes with EPH, where it doesn't end in a byte FF with the last header byte: it begins at header byte `at`, of so many
// plain ones.
fn header_end(window: &[u8], s: InWindow, plain: usize, at: usize, eph: bool) -> Option<usize>
    requires { (length window.now ≡ window_bytes) × (s.run.bio.bp + most_of_block ≤ window_bytes) × (at ≤ plain)
        × (at ≤ s.base + s.run.bio.bp) × (s.base + s.run.bio.bp + 5 < 2 ^ 64) × (plain + 5 < 2 ^ 64) }
    ensures { EndsInWindow window.now s plain at eph result }
{
    let run = s.run;
    let b = run.bio;
    let place = s.base + b.bp - at;
    let left = plain - at;
    let taken = bytes_taken(b.buf, place, left)?;
    if left < taken + 2 {
        return Some(taken);
    }
    let index = b.bp + (taken - place);
    let e = t2_read_marks::read_marker(eph, Marker::EPH, window, index);
    Some(taken + e.skip)
}

// ---- the packet

// The next layer of the state in `words`, which holds anything after a refusal: its header begins at byte `at` of the `plain` header bytes,
// SOP in front of `bodies`, and the window with header byte `base`.
pub fn skip_gathered(
    words: &mut [u32],
    segments: &[u8],
    plain: usize,
    at: usize,
    bodies: &[u8],
    m: Markers,
    window: &mut [u8],
    base: usize,
) -> SkippedGathered
    requires { (valid_state reader words.old (length words.old) ≡ true) × (WindowOn segments.now window.old base)
        × (plain ≡ length (unpacked segments.now).bytes) × (at ≤ plain) }
    ensures { (SkipsPacket (parts_gathered words.old m (drop at (unpacked segments.now).bytes)
        bodies.now) words.new (skipped result.parts)) × (WindowOn segments.now window.new result.base) }
{
    let layer = words[3];
    if layer == tcd_style::NOT_YET_INCLUDED {
        let parts = Err(Refusal::Layers);
        return SkippedGathered { parts, base };
    }
    let o = skip_header(words, segments, window, at, base);
    let run = o.run;
    if let Some(why) = t2_skip_packet::refusal_of(run.refusal) {
        return SkippedGathered {
            parts: Err(why),
            base: o.base,
        };
    }
    let Some(header) = header_end(window, o, plain, at, m.eph) else {
        return SkippedGathered {
            parts: Err(Refusal::HeaderEnd),
            base: o.base,
        };
    };
    words[3] = layer + 1;
    let sop = t2_read_marks::read_marker(m.sop, Marker::SOP, bodies, 0);
    let parts = Parts {
        sop: sop.skip,
        header,
        body: run.bytes,
    };
    SkippedGathered {
        parts: Ok(parts),
        base: o.base,
    }
}
