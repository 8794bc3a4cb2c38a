// The packets of a row gathered, one a place: headers into PPT marker segments, the rest of the packets behind one another.
#![tactic(auto)]

ghost use Rattle.std.specs.Prelude.{◌≡◌, true, false, ◌+◌, ◌*◌, ◌≤◌, length, drop};
ghost use Rattle.t800.specs.State.{reader};
ghost use Rattle.t800.specs.Ranges.{valid_state};
ghost use Rattle.t800.specs.PackedHeaders.{most_bytes, most_segments};
ghost use Rattle.t800.specs.Gathered.{states_in, bad_states};
ghost use Rattle.tcd_states.specs.States.{Indexed, words_at};
ghost use Rattle.t2_gather_row.specs.Standing.{GathersAt, GathersPackets};

use t2_gather_packet::Moved;
use t800::{Markers, Refusal};
use tcd_states::Found;

// The packet in front of what is left of the row, with these words of the scratch for its state.
fn gather_at(
    row: &[u8],
    scratch: &mut [u32],
    f: Found,
    m: Markers,
    headers: &mut [u8],
    bodies: &mut [u8],
    g: Moved,
) -> Result<Moved, Refusal>
    requires { (f.start + f.words ≤ length scratch.old)
        × (valid_state reader (words_at f scratch.old) (length (words_at f scratch.old)) ≡ true)
        × (g.taken ≤ length row.now) × (g.headers ≤ most_segments * most_bytes) × (g.bodies ≤ length bodies.old) }
    ensures { GathersAt (drop g.taken row.now) m f scratch.old headers.old
        bodies.old g scratch.new headers.new bodies.new result }
{
    let at = g.taken;
    let start = f.start;
    let end = start + f.words;
    t2_gather_packet::gather_packet(&row[at..], &mut scratch[start..end], m, headers, bodies, g)
}

// One packet a place, until one is refused; the states are looked up in `states`, and moved on in `scratch`.
fn gather_places(
    row: &[u8],
    states: &[u32],
    starts: &[usize],
    stride: usize,
    scratch: &mut [u32],
    places: &[u32],
    m: Markers,
    headers: &mut [u8],
    bodies: &mut [u8],
) -> Result<Moved, Refusal>
    requires { (bad_states states.now (length scratch.old) places.now ≡ false)
        × Indexed (states_in states.now) stride starts.now × (scratch.old ≡ states.now) }
    ensures { GathersPackets row.now m states.now places.now headers.old
        bodies.old scratch.new headers.new bodies.new result }
{
    let mut g = Moved {
        taken: 0,
        headers: 0,
        bodies: 0,
    };
    for &place in places {
        let f = tcd_states::find_state(states, starts, stride, place as usize);
        g = gather_at(row, scratch, f, m, headers, bodies, g)?;
    }
    Ok(g)
}

// The same, with an index of the states; after a refusal the lists hold anything.
pub fn gather_packets(
    row: &[u8],
    states: &[u32],
    scratch: &mut [u32],
    places: &[u32],
    m: Markers,
    headers: &mut [u8],
    bodies: &mut [u8],
) -> Result<Moved, Refusal>
    requires { (bad_states states.now (length scratch.old) places.now ≡ false) × (scratch.old ≡ states.now) }
    ensures { GathersPackets row.now m states.now places.now headers.old
        bodies.old scratch.new headers.new bodies.new result }
{
    let mut starts = [0usize; 256];
    let count = tcd_states::count_states(states).unwrap();
    let stride = tcd_states::index_states(states, count, &mut starts);
    gather_places(
        row, states, &starts, stride, scratch, places, m, headers, bodies,
    )
}
