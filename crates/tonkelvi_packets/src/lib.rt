// Measuring and writing with the lent list of answer words.
#![tactic(auto)]

ghost use Rattle.std.specs.Prelude.{◌≡◌};
ghost use Rattle.t800.specs.WriteHeader.{contribution};
ghost use Rattle.t800.specs.Exports.{measure_call, write_call};

use t800::{Markers, Refusal};

// Answers header and body bytes.
pub fn measure(
    state: &[u32],
    scratch: &mut [u32],
    counts: &[u32],
    lengths: &[u32],
    marks: &[u8],
    sop: bool,
    eph: bool,
    answer: &mut [u64],
) -> u32
    ensures { record { refusal = result; scratch = scratch.new; answer = answer.new }
        ≡ measure_call state.now scratch.old
        (contribution counts.now lengths.now marks.now) (record { sop = sop; eph = eph })
        answer.old }
{
    if answer.len() != 2 {
        return u32::from(Refusal::List);
    }
    let r = t2_measure::measure(state, scratch, counts, lengths, marks, Markers { sop, eph });
    lists::copy(&[r.header, r.body], answer);
    r.refusal
}

// Answers the packet's bytes.
pub fn write(
    state: &mut [u32],
    scratch: &mut [u32],
    counts: &[u32],
    lengths: &[u32],
    marks: &[u8],
    body: &[u8],
    sop: bool,
    eph: bool,
    number: u32,
    output: &mut [u8],
    answer: &mut [u64],
) -> u32
    ensures { record {
      refusal = result;
      state = state.new;
      scratch = scratch.new;
      output = output.new;
      answer = answer.new;
    }
        ≡ write_call state.old scratch.old
        (contribution counts.now lengths.now marks.now) body.now
        (record { sop = sop; eph = eph }) number output.old answer.old }
{
    if answer.len() != 1 {
        return u32::from(Refusal::List);
    }
    let r = t2_write::write(
        state,
        scratch,
        counts,
        lengths,
        marks,
        body,
        Markers { sop, eph },
        number,
        output,
    );
    lists::copy(&[r.bytes], answer);
    r.refusal
}
