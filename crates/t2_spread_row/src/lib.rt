// Packets put together again, one a place, from headers gathered in PPT marker segments and what is left of the packets.
#![tactic(auto)]

ghost use Rattle.std.specs.Prelude.{◌≡◌, true, false, ◌+◌, ◌≤◌, length, drop};
ghost use Rattle.t800.specs.State.{reader};
ghost use Rattle.t800.specs.Ranges.{valid_state};
ghost use Rattle.t800.specs.PackedHeaders.{unpacked};
ghost use Rattle.t800.specs.Gathered.{states_in, bad_states};
ghost use Rattle.tcd_states.specs.States.{Indexed, words_at};
ghost use Rattle.t2_skip_windows.specs.Windows.{WindowOn};
ghost use Rattle.t2_spread_packet.specs.Moving.{StandsAt};
ghost use Rattle.t2_spread_row.specs.Standing.{SpreadsAt, SpreadsPackets};

use t2_spread_packet::Moved;
use t2_unpack_headers::Cursor;
use t800::{Markers, Refusal};
use tcd_states::Found;

// The window's bytes.
const WINDOW: usize = 32768;

// The packet whose header is next, with these words of the scratch for its state; `plain` is how many header bytes there are.
fn spread_at(
    segments: &[u8],
    plain: usize,
    bodies: &[u8],
    scratch: &mut [u32],
    f: Found,
    m: Markers,
    window: &mut [u8],
    row: &mut [u8],
    g: Moved,
) -> Result<Moved, Refusal>
    requires { (f.start + f.words ≤ length scratch.old)
        × (valid_state reader (words_at f scratch.old) (length (words_at f scratch.old)) ≡ true)
        × (StandsAt segments.now window.old g) × (plain ≡ length (unpacked segments.now).bytes)
        × (g.bodies ≤ length bodies.now) × (g.row ≤ length row.old) }
    ensures { SpreadsAt segments.now (drop g.bodies bodies.now) m f scratch.old
        row.old g scratch.new window.new row.new result }
{
    let at = g.bodies;
    let start = f.start;
    let end = start + f.words;
    t2_spread_packet::spread_packet(
        segments,
        plain,
        &bodies[at..],
        &mut scratch[start..end],
        m,
        window,
        row,
        g,
    )
}

// One packet a place, until one is refused; the states are looked up in `states`, and moved on in `scratch`.
fn spread_places(
    segments: &[u8],
    plain: usize,
    bodies: &[u8],
    states: &[u32],
    starts: &[usize],
    stride: usize,
    scratch: &mut [u32],
    places: &[u32],
    m: Markers,
    window: &mut [u8],
    row: &mut [u8],
) -> Result<Moved, Refusal>
    requires { (bad_states states.now (length scratch.old) places.now ≡ false)
        × Indexed (states_in states.now) stride starts.now × (scratch.old ≡ states.now)
        × (WindowOn segments.now window.old 0) × (plain ≡ length (unpacked segments.now).bytes) }
    ensures { SpreadsPackets segments.now bodies.now m states.now places.now
        row.old scratch.new row.new result }
{
    let mut g = Moved {
        headers: 0,
        bodies: 0,
        row: 0,
        base: 0,
        segment: Cursor { at: 0, before: 0 },
    };
    for &place in places {
        let f = tcd_states::find_state(states, starts, stride, place as usize);
        g = spread_at(segments, plain, bodies, scratch, f, m, window, row, g)?;
    }
    Ok(g)
}

// With an index of the states, and the first header bytes in the window.
pub fn spread_packets(
    segments: &[u8],
    plain: usize,
    bodies: &[u8],
    states: &[u32],
    scratch: &mut [u32],
    places: &[u32],
    m: Markers,
    row: &mut [u8],
) -> Result<Moved, Refusal>
    requires { (bad_states states.now (length scratch.old) places.now ≡ false) × (scratch.old ≡ states.now)
        × ((unpacked segments.now).refusal ≡ 0) × (plain ≡ length (unpacked segments.now).bytes) }
    ensures { SpreadsPackets segments.now bodies.now m states.now places.now
        row.old scratch.new row.new result }
{
    let mut starts = [0usize; 256];
    let count = tcd_states::count_states(states).unwrap();
    let stride = tcd_states::index_states(states, count, &mut starts);
    let mut window = [0u8; WINDOW];
    t2_skip_windows::fill_from(segments, &mut window, 0);
    spread_places(
        segments,
        plain,
        bodies,
        states,
        &starts,
        stride,
        scratch,
        places,
        m,
        &mut window,
        row,
    )
}
