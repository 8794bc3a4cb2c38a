// A packet whose first bit is 1 (t2.rs): its header read into scratch and settled in the state, or refused.
#![tactic(auto)]

ghost use Rattle.std.specs.Prelude.{◌≡◌, true, ◌*◌, ◌/◌, ◌<◌, ◌≤◌, length};
ghost use Rattle.t800.specs.State.{reader, layer, bands, blocks, not_yet_included};
ghost use Rattle.t800.specs.Ranges.{valid_state};
ghost use Rattle.t800.specs.ReadHeader.{read_header};
ghost use Rattle.t800.specs.Bits.{bio_at};
ghost use Rattle.bits_taken.specs.Taken.{Takes};
ghost use Rattle.t2_read_marks.specs.Marks.{marker_read};
ghost use Rattle.t2_read_present.specs.Answers.{present_or_broken};
ghost use Rattle.t800.specs.Packet.{read_result};
ghost use Rattle.t800.specs.Reports.{report_width, record_width, as_words};

use t2_read_marks::MarkerFound;
use t800::{Bio, Markers, ReadAnswer};

// A first bit 1.
pub fn read_present(
    state: &mut [u32],
    scratch: &mut [u32],
    reports: &mut [u32],
    records: &mut [u32],
    src: &[u8],
    m: Markers,
    s: MarkerFound,
    b: Bio,
) -> ReadAnswer
    requires { (valid_state reader state.old (length scratch.old) ≡ true) × (layer state.old < not_yet_included)
        × (length reports.old ≡ report_width * length (blocks (bands state.old))) × (s.skip ≤ length src.now)
        × (Takes src.now 1 (bio_at s.skip) b) }
    ensures { read_result as_words state.new scratch.new reports.new records.new result
        ≡ present_or_broken state.old scratch.old m src.now reports.old
        records.old (marker_read s)
        (read_header src.now (length records.old / record_width) state.old b) }
{
    lists::copy(state, scratch);
    let run = t2_read_header::opj_t2_read_packet_header(scratch, reports, records, src, b);
    if run.refusal != 0 {
        t2_read_settle::wipe_all(scratch, reports, records);
        return t2_read_refusals::refused(run.refusal);
    }
    t2_read_settle::settle(state, scratch);
    t2_read_marks::done(src, m, s, run.bio, 1, run.count)
}
