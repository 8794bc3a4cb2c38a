// What a read leaves in the lent lists (t2.rs): an absent packet's next layer, a header's words settled in the state, or all wiped.
#![tactic(auto)]

ghost use Rattle.std.specs.Prelude.{◌≡◌, true, ◌+◌, ◌<◌, length, set};
ghost use Rattle.t800.specs.Base.{wiped};
ghost use Rattle.t800.specs.State.{reader, layer, not_yet_included};
ghost use Rattle.t800.specs.Ranges.{valid_state};
ghost use Rattle.t800.specs.Reports.{as_words};
ghost use Rattle.t800.specs.Packet.{read_absent, read_result};
ghost use Rattle.bits_taken.specs.Taken.{Reached};
ghost use Rattle.t2_read_marks.specs.Marks.{marker_read};
ghost use Rattle.t2_read_settle.specs.Results.{WithAnyRecords};

use t2_read_marks::MarkerFound;
use t800::{Bio, Markers, ReadAnswer};

// A first bit 0: only the next layer moves.
pub fn read_absent(
    state: &mut [u32],
    scratch: &mut [u32],
    reports: &mut [u32],
    src: &[u8],
    m: Markers,
    s: MarkerFound,
    b: Bio,
) -> ReadAnswer
    requires { (valid_state reader state.old (length scratch.old) ≡ true) × (layer state.old < not_yet_included)
        × (Reached src.now s.skip b) }
    ensures { WithAnyRecords
        (λ records. read_result as_words state.new scratch.new reports.new records result)
        (λ records. read_absent as_words state.old m src.now reports.old records (marker_read s) b) }
{
    let next = state[3] + 1;
    state[3] = next;
    lists::copy(state, scratch);
    lists::wipe(reports);
    t2_read_marks::done(src, m, s, b, 0, 0)
}

pub fn wipe_all(scratch: &mut [u32], reports: &mut [u32], records: &mut [u32])
    ensures { (scratch.new ≡ wiped scratch.old) × (reports.new ≡ wiped reports.old)
        × (records.new ≡ wiped records.old) }
{
    lists::wipe(scratch);
    lists::wipe(reports);
    lists::wipe(records);
}

// What was read becomes the state, with the next layer.
pub fn settle(state: &mut [u32], scratch: &mut [u32])
    requires { (length scratch.old ≡ length state.old) × (3 < length state.old) × (layer state.old < not_yet_included) }
    ensures { (state.new ≡ set scratch.old 3 (layer state.old + 1))
        × (scratch.new ≡ set scratch.old 3 (layer state.old + 1)) }
{
    let next = state[3] + 1;
    scratch[3] = next;
    lists::copy(scratch, state);
}
