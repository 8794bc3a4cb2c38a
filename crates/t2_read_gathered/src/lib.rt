// A packet read from gathered headers (t2.rs, with ppt set): header and EPH as from a stream without SOP, and SOP in front of the bodies.
#![tactic(auto)]

ghost use Rattle.std.specs.Prelude.{◌≡◌, false};
ghost use Rattle.t800.specs.Reports.{as_words};
ghost use Rattle.t800.specs.Gathered.{told_beside, gathered_result, read_gathered};

use t800::{Markers, ReadAnswer, ReadGatheredAnswer};
use tcd_style::Marker;

// What a read of the headers tells, with SOP looked for in front of `src`.
pub fn told_beside(a: ReadAnswer, sop: bool, src: &[u8]) -> ReadGatheredAnswer
    ensures { result ≡ told_beside (record { sop = sop; eph = false }) src.now a }
{
    let s = t2_read_marks::read_marker(sop, Marker::SOP, src, 0);
    let mut taken = s.skip;
    let mut mark = u32::from(s.mark);
    if a.refusal != 0 {
        taken = 0;
        mark = 0;
    }
    ReadGatheredAnswer {
        refusal: a.refusal,
        present: a.present,
        headers: a.taken,
        taken: taken as u64,
        segments: a.segments,
        sop: mark,
        eph: a.eph,
        past: a.past,
    }
}

// The next layer of the state.
pub fn read_gathered(
    state: &mut [u32],
    scratch: &mut [u32],
    headers: &[u8],
    src: &[u8],
    m: Markers,
    reports: &mut [u32],
    records: &mut [u32],
) -> ReadGatheredAnswer
    ensures { gathered_result as_words state.new scratch.new reports.new records.new result
        ≡ read_gathered as_words state.old scratch.old m headers.now src.now
        reports.old records.old }
{
    let plain = Markers {
        sop: false,
        eph: m.eph,
    };
    let a = t2_read_packet::read(state, scratch, headers, plain, reports, records);
    told_beside(a, m.sop, src)
}
