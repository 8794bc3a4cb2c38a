// A packet that measuring lets pass (opj_t2_encode_packet of t2.rs): put into scratch and output, and settled in the state.
#![tactic(auto)]

ghost use Rattle.std.specs.Prelude.{◌≡◌, ◌+◌, ◌≤◌, length, set};
ghost use Rattle.t800.specs.State.{layer};
ghost use Rattle.t800.specs.WriteHeader.{contribution};
ghost use Rattle.t2_refusal_laws.specs.Refusals.{measure_refusal_for};
ghost use Rattle.t2_put_packet.specs.Put.{answer_of, PacketPut};

use t800::{Markers, Refusal};

// The scratch becomes the state after the packet. Without room for it the output holds what of it had room.
pub fn put(
    state: &[u32],
    scratch: &mut [u32],
    counts: &[u32],
    lengths: &[u32],
    marks: &[u8],
    body: &[u8],
    markers: Markers,
    number: u32,
    output: &mut [u8],
) -> Result<usize, Refusal>
    requires { measure_refusal_for state.now (length scratch.old) (contribution counts.now lengths.now marks.now) ≡ 0 }
    ensures { PacketPut state.now (contribution counts.now lengths.now marks.now)
        body.now markers number output.old (answer_of result) scratch.new output.new }
{
    let end = t2_write_packet::put_front(
        state, scratch, output, counts, lengths, marks, markers, number,
    );
    if !t2_write_packet::has_room(output.len(), end, body.len()) {
        return Err(Refusal::Space);
    }
    Ok(t2_write_packet::put_body(output, end, body))
}

// The state becomes the scratch; without passes the next layer is the only word that differs.
pub fn settle(scratch: &[u32], state: &mut [u32], passes: usize)
    requires { (13 ≤ length state.old) × (length scratch.now ≡ length state.old)
        × (passes ≡ 0 → scratch.now ≡ set state.old 3 (layer state.old + 1)) }
    ensures { state.new ≡ scratch.now }
{
    if passes == 0 {
        state[3] = scratch[3];
        return;
    }
    lists::copy(scratch, state);
}
