// Writing a packet (opj_t2_encode_packet of t2.rs): check, put, settle.
#![tactic(auto)]

ghost use Rattle.std.specs.Prelude.{◌≡◌};
ghost use Rattle.t800.specs.Packet.{write};
ghost use Rattle.t800.specs.WriteHeader.{contribution};

use t800::{Markers, Refusal, WriteAnswer};

pub fn write(
    state: &mut [u32],
    scratch: &mut [u32],
    counts: &[u32],
    lengths: &[u32],
    marks: &[u8],
    body: &[u8],
    markers: Markers,
    number: u32,
    output: &mut [u8],
) -> WriteAnswer
    ensures { record { answer = result; state = state.new; scratch = scratch.new; output = output.new }
        ≡ write state.old scratch.old
        (contribution counts.now lengths.now marks.now) body.now markers number
        output.old }
{
    if let Some(why) = t2_refusals::measure_refusal(state, scratch.len(), counts, lengths, marks) {
        return WriteAnswer::refused(why);
    }
    if body.len() as u64 != t2_narrow::total(lengths) {
        return WriteAnswer::refused(Refusal::Body);
    }
    match t2_put_packet::put(
        state, scratch, counts, lengths, marks, body, markers, number, output,
    ) {
        Ok(bytes) => {
            t2_put_packet::settle(scratch, state, lengths.len());
            WriteAnswer {
                refusal: 0,
                bytes: bytes as u64,
            }
        }
        Err(why) => {
            lists::wipe(scratch);
            lists::wipe(output);
            WriteAnswer::refused(why)
        }
    }
}
