// The exported read from gathered headers but for its structs: the read on the work list, and the lent list of answer words.
#![tactic(auto)]

ghost use Rattle.std.specs.Prelude.{◌≡◌};
ghost use Rattle.t800.specs.Reports.{as_words};
ghost use Rattle.t800.specs.Packet.{read_result};
ghost use Rattle.tonkelvi_gathered_parts.specs.Gathered.{gathered_numbers};

use t800::{Markers, ReadAnswer, Refusal};

// The work list must have four words for each record that there is room for.
pub fn gathered_words(
    state: &mut [u32],
    scratch: &mut [u32],
    headers: &[u8],
    src: &[u8],
    sop: bool,
    eph: bool,
    reports: &mut [u32],
    work: &mut [u32],
    room: usize,
    answer: &mut [u64],
) -> ReadAnswer
    ensures { record {
      result = read_result as_words state.new scratch.new reports.new work.new result;
      answer = answer.new;
    }
        ≡ gathered_numbers state.old scratch.old (record { sop = sop; eph = eph }) headers.now
        src.now reports.old work.old room answer.old }
{
    if answer.len() != 7 {
        return ReadAnswer::refused(Refusal::List);
    }
    let plain = Markers { sop: false, eph };
    let r = t2_read_numbers::read_numbers(state, scratch, headers, plain, reports, work, room);
    let a = t2_read_gathered::told_beside(r, sop, src);
    let words = [
        u64::from(a.present),
        a.headers,
        a.taken,
        a.segments,
        u64::from(a.sop),
        u64::from(a.eph),
        a.past,
    ];
    lists::copy(&words, answer);
    r
}
