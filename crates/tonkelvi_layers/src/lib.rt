// Writing a layer with the lent list of answer words.
#![tactic(auto)]

ghost use Rattle.std.specs.Prelude.{◌≡◌};
ghost use Rattle.t800.specs.WriteHeader.{contribution};
ghost use Rattle.t800.specs.Exports.{write_layer_call};

use t800::{Markers, Refusal};

// Answers the place of the precinct refused, and the bytes of all packets.
pub fn write_layer(
    states: &mut [u32],
    scratch: &mut [u32],
    numbers: &[u32],
    counts: &[u32],
    lengths: &[u32],
    marks: &[u8],
    bodies: &[u8],
    sop: bool,
    eph: bool,
    output: &mut [u8],
    answer: &mut [u64],
) -> u32
    ensures { record {
      refusal = result;
      states = states.new;
      scratch = scratch.exit.now;
      output = output.new;
      answer = answer.new;
    }
        ≡ write_layer_call states.old (record {
          scratch = scratch.entry.now;
          contribution = contribution counts.now lengths.now marks.now;
          bodies = bodies.now;
          markers = record { sop = sop; eph = eph };
          numbers = numbers.now;
          output = output.old;
        }) answer.old }
{
    if answer.len() != 2 {
        return u32::from(Refusal::List);
    }
    let r = t2_write_layer::write_layer(
        states,
        scratch,
        numbers,
        counts,
        lengths,
        marks,
        bodies,
        Markers { sop, eph },
        output,
    );
    lists::copy(&[r.place, r.bytes], answer);
    r.refusal
}
