// A layer's precincts, one after another: each packet put, and all states settled once the last one is accepted.
#![tactic(auto)]

ghost use Rattle.std.specs.Prelude.{◌≡◌, ◌≤◌, length};
ghost use Rattle.t800.specs.WriteHeader.{contribution};
ghost use Rattle.t2_write_precincts.specs.Layer.{LayerWritten};

use t800::{LayerAnswer, Markers};

// What is left in scratch and output with a refusal is for the caller to wipe.
pub fn write_precincts(
    numbers: &[u32],
    states: &mut [u32],
    scratch: &mut [u32],
    counts: &[u32],
    lengths: &[u32],
    marks: &[u8],
    bodies: &[u8],
    markers: Markers,
    output: &mut [u8],
) -> LayerAnswer
    requires { (1 ≤ length numbers.now) × (length numbers.now ≤ 16) × (length scratch.old ≡ length states.old) }
    ensures { LayerWritten states.old (record {
      scratch = scratch.entry.now;
      contribution = contribution counts.now lengths.now marks.now;
      bodies = bodies.now;
      markers = markers;
      numbers = numbers.now;
      output = output.old;
    }) result states.new scratch.exit.now output.new }
{
    let last = numbers.len() - 1;
    let mut words: [usize; 16] = [0; 16];
    let mut passes: [usize; 16] = [0; 16];
    let mut word: usize = 0;
    let mut block: usize = 0;
    let mut pass: usize = 0;
    let mut byte: usize = 0;
    let mut end: usize = 0;
    for i in 0..last {
        let (front, packet) = match t2_layer_parts::write_in_front(
            &states[word..],
            &mut scratch[word..],
            &counts[block..],
            &lengths[pass..],
            &marks[pass..],
            &bodies[byte..],
            markers,
            numbers[i],
            &mut output[end..],
        ) {
            Ok(written) => written,
            Err(why) => return LayerAnswer::refused(why, i),
        };
        words[i] = front.words;
        passes[i] = front.passes;
        word += front.words;
        block += front.blocks;
        pass += front.passes;
        byte += front.bytes;
        end += packet;
    }
    let a = t2_write::write(
        &mut states[word..],
        &mut scratch[word..],
        &counts[block..],
        &lengths[pass..],
        &marks[pass..],
        &bodies[byte..],
        markers,
        numbers[last],
        &mut output[end..],
    );
    if a.refusal != 0 {
        return LayerAnswer {
            refusal: a.refusal,
            place: last as u64,
            bytes: 0,
        };
    }
    t2_settle_states::settle_states(scratch, states, &words, &passes, last);
    LayerAnswer {
        refusal: 0,
        place: 0,
        bytes: end as u64 + a.bytes,
    }
}
