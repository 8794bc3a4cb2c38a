// The headers of a row of packets moved into PPT marker segments (SCOPE S22), and the rest of the packets behind one another.
#![tactic(auto)]

ghost use Rattle.std.specs.Prelude.{◌≡◌, ◌*◌, ◌≤◌, length};
ghost use Rattle.t800.specs.RefusalNumbers.{number_of};
ghost use Rattle.t800.specs.PackedHeaders.{most_bytes, most_segments};
ghost use Rattle.t800.specs.Gathered.{gather};
ghost use Rattle.t2_pack_headers.specs.Packing.{packed_length, closed};
ghost use Rattle.t2_gather.specs.Answers.{gather_result, refused_move};

use t2_gather_packet::Moved;
use t800::{GatherAnswer, Markers, Refusal};

fn refuse(scratch: &mut [u32], headers: &mut [u8], bodies: &mut [u8], why: Refusal) -> GatherAnswer
    ensures { gather_result result scratch.new headers.new bodies.new
        ≡ refused_move (number_of why) scratch.old headers.old bodies.old }
{
    lists::wipe(scratch);
    lists::wipe(headers);
    lists::wipe(bodies);
    GatherAnswer::refused(why)
}

// The last segment's length field, and the answer.
fn close(headers: &mut [u8], g: Moved) -> GatherAnswer
    requires { (packed_length g.headers ≤ length headers.old) × (g.headers ≤ most_segments * most_bytes) }
    ensures { (headers.new ≡ closed headers.old g.headers)
        × (result ≡ record { refusal = 0; headers = packed_length g.headers; bodies = g.bodies }) }
{
    let count = g.headers;
    t2_pack_headers::close_segments(headers, count);
    let bytes = t2_pack_headers::packed_length(count);
    GatherAnswer {
        refusal: 0,
        headers: bytes as u64,
        bodies: g.bodies as u64,
    }
}

pub fn gather(
    row: &[u8],
    states: &[u32],
    scratch: &mut [u32],
    places: &[u32],
    m: Markers,
    headers: &mut [u8],
    bodies: &mut [u8],
) -> GatherAnswer
    ensures { record { answer = result; scratch = scratch.new; headers = headers.new; bodies = bodies.new }
        ≡ gather row.now states.now scratch.old places.now m
        headers.old bodies.old }
{
    if !tcd_states::states_fit(states, scratch.len(), places) {
        return refuse(scratch, headers, bodies, Refusal::State);
    }
    lists::copy(states, scratch);
    let g = match t2_gather_row::gather_packets(row, states, scratch, places, m, headers, bodies) {
        Ok(g) => g,
        Err(why) => return refuse(scratch, headers, bodies, why),
    };
    if g.taken < row.len() {
        return refuse(scratch, headers, bodies, Refusal::Body);
    }
    close(headers, g)
}
