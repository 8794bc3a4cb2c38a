// Start of a writer or a reader for one precinct: four checks, then a lent state is filled as at layer 0.
#![tactic(auto)]

ghost use Rattle.std.specs.Prelude.{◌≡◌};
ghost use Rattle.t800.specs.State.{writer, reader};
ghost use Rattle.t800.specs.Start.{start};
ghost use Rattle.t2_start_parts.specs.Parts.{begun};

use t800::Band;
use tcd_style::{READER, WRITER};

// ---- the calls

// What both roles do: the checks, and a fresh state.
fn begin(
    role: u32,
    count: u32,
    bands: [Band; 3],
    style: u8,
    planes: &[u32],
    state: &mut [u32],
) -> u32
    ensures { record { answer = result; state = state.new }
        ≡ begun role count bands style planes.now state.old }
{
    let why = t2_start_parts::refusal(role, count, bands, style, planes, state);
    let refused = t800::answer_word(why);
    if refused != 0 {
        return refused;
    }
    t2_start_parts::fill(role, count, bands, style, state);
    0
}

// Answers 0 or a refusal.
pub fn start_writer(
    count: u32,
    bands: [Band; 3],
    style: u8,
    planes: &[u32],
    state: &mut [u32],
) -> u32
    ensures { record { answer = result; state = state.new }
        ≡ start writer count bands style planes.now state.old }
{
    let answer = begin(WRITER, count, bands, style, planes, state);
    if answer != 0 {
        return answer;
    }
    t2_start_planes::set_zero_planes(bands, count as usize, planes, state);
    0
}

// Answers 0 or a refusal; the planes are to be an empty list.
pub fn start_reader(
    count: u32,
    bands: [Band; 3],
    style: u8,
    planes: &[u32],
    state: &mut [u32],
) -> u32
    ensures { record { answer = result; state = state.new }
        ≡ start reader count bands style planes.now state.old }
{
    begin(READER, count, bands, style, planes, state)
}
