// Reading one packet (t2.rs): turned away, or by its first bit, after SOP, absent or present.
#![tactic(auto)]

ghost use Rattle.std.specs.Prelude.{◌≡◌};
ghost use Rattle.t800.specs.Reports.{as_words};
ghost use Rattle.t800.specs.Packet.{read, read_result};

use t800::{Markers, ReadAnswer};
use tcd_style::Marker;

// The next layer of the state.
pub fn read(
    state: &mut [u32],
    scratch: &mut [u32],
    src: &[u8],
    m: Markers,
    reports: &mut [u32],
    records: &mut [u32],
) -> ReadAnswer
    ensures { read_result as_words state.new scratch.new reports.new records.new result
        ≡ read as_words state.old scratch.old m src.now reports.old records.old }
{
    if let Some(why) = t2_read_refusals::read_refusal(state, scratch, reports) {
        return ReadAnswer::refused(why);
    }
    let s = t2_read_marks::read_marker(m.sop, Marker::SOP, src, 0);
    let start = bio_read::opj_bio_init_dec(s.skip);
    let first = bio_read_lent::bit_in(src, start);
    if first.value == 0 {
        return t2_read_settle::read_absent(state, scratch, reports, src, m, s, first.bio);
    }
    t2_read_present::read_present(state, scratch, reports, records, src, m, s, first.bio)
}
