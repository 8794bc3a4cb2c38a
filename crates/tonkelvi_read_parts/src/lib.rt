// The exported read but for its structs: the read on the work list, and the lent list of answer words.
#![tactic(auto)]

ghost use Rattle.std.specs.Prelude.{◌≡◌};
ghost use Rattle.t800.specs.Reports.{as_words};
ghost use Rattle.t800.specs.Packet.{read_result};
ghost use Rattle.tonkelvi_read_parts.specs.Numbers.{numbers_call};

use t800::{Markers, ReadAnswer, Refusal};

// The work list must have four words for each record that there is room for.
pub fn read_words(
    state: &mut [u32],
    scratch: &mut [u32],
    src: &[u8],
    sop: bool,
    eph: bool,
    reports: &mut [u32],
    work: &mut [u32],
    room: usize,
    answer: &mut [u64],
) -> ReadAnswer
    ensures { record {
      result = read_result as_words state.new scratch.new reports.new work.new result;
      answer = answer.new;
    }
        ≡ numbers_call state.old scratch.old (record { sop = sop; eph = eph }) src.now
        reports.old work.old room answer.old }
{
    if answer.len() != 6 {
        return ReadAnswer::refused(Refusal::List);
    }
    let markers = Markers { sop, eph };
    let r = t2_read_numbers::read_numbers(state, scratch, src, markers, reports, work, room);
    let words = [
        u64::from(r.present),
        r.taken,
        r.segments,
        u64::from(r.sop),
        u64::from(r.eph),
        r.past,
    ];
    lists::copy(&words, answer);
    r
}
