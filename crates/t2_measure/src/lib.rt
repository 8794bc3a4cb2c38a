// Measuring a packet (opj_t2_encode_packet of t2.rs): check, copy the state, count.
#![tactic(auto)]

ghost use Rattle.std.specs.Prelude.{◌≡◌};
ghost use Rattle.t800.specs.Packet.{measure};
ghost use Rattle.t800.specs.WriteHeader.{contribution};

use t800::{Markers, MeasureAnswer};

// An output of one byte stores next to nothing of the header and counts all of it.
pub fn measure(
    state: &[u32],
    scratch: &mut [u32],
    counts: &[u32],
    lengths: &[u32],
    marks: &[u8],
    markers: Markers,
) -> MeasureAnswer
    ensures { record { answer = result; scratch = scratch.new }
        ≡ measure state.now scratch.old
        (contribution counts.now lengths.now marks.now) markers }
{
    if let Some(why) = t2_refusals::measure_refusal(state, scratch.len(), counts, lengths, marks) {
        return MeasureAnswer::refused(why);
    }
    let mut none: [u8; 1] = [0];
    let end = t2_write_packet::put_front(
        state, scratch, &mut none, counts, lengths, marks, markers, 0,
    );
    let body = t2_narrow::total(lengths);
    MeasureAnswer {
        refusal: 0,
        header: end as u64,
        body,
    }
}
