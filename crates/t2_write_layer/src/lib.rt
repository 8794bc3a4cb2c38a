// One layer of up to 16 precincts, written whole or not at all.
#![tactic(auto)]

ghost use Rattle.std.specs.Prelude.{◌≡◌};
ghost use Rattle.t800.specs.Base.{wiped};
ghost use Rattle.t800.specs.WriteHeader.{contribution};
ghost use Rattle.t800.specs.Layer.{write_layer};

use t800::{LayerAnswer, Markers, Refusal};

fn none_of_it(scratch: &mut [u32], output: &mut [u8], answer: LayerAnswer) -> LayerAnswer
    ensures { (result ≡ answer) × (scratch.new ≡ wiped scratch.old)
        × (output.new ≡ wiped output.old) }
{
    lists::wipe(scratch);
    lists::wipe(output);
    answer
}

pub fn write_layer(
    states: &mut [u32],
    scratch: &mut [u32],
    numbers: &[u32],
    counts: &[u32],
    lengths: &[u32],
    marks: &[u8],
    bodies: &[u8],
    markers: Markers,
    output: &mut [u8],
) -> LayerAnswer
    ensures { record { answer = result; states = states.new; scratch = scratch.exit.now; output = output.new }
        ≡ write_layer states.old (record {
          scratch = scratch.entry.now;
          contribution = contribution counts.now lengths.now marks.now;
          bodies = bodies.now;
          markers = markers;
          numbers = numbers.now;
          output = output.old;
        }) }
{
    if 16 < numbers.len() {
        return LayerAnswer::refused(Refusal::Precincts, 0);
    }
    if numbers.is_empty() {
        return LayerAnswer {
            refusal: 0,
            place: 0,
            bytes: 0,
        };
    }
    if scratch.len() != states.len() {
        return none_of_it(scratch, output, LayerAnswer::refused(Refusal::State, 0));
    }
    let r = t2_write_precincts::write_precincts(
        numbers, states, scratch, counts, lengths, marks, bodies, markers, output,
    );
    if r.refusal != 0 {
        return none_of_it(scratch, output, r);
    }
    r
}
