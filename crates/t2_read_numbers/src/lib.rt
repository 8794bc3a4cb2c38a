// The read on the work list with room for so many records, and how many records are then to be stored.
#![tactic(auto)]

ghost use Rattle.std.specs.Prelude.{◌≡◌, ◌*◌, eqb};
ghost use Rattle.t800.specs.Packet.{read_result};
ghost use Rattle.t800.specs.Reports.{record_width, as_words};
ghost use Rattle.t800.specs.Exports.{work_refusal};
ghost use Rattle.t800.specs.RefusalNumbers.{number_of};
ghost use Rattle.t2_read_numbers.specs.Reading.{read_numbers, to_fill};

use t800::{Markers, RECORD_WIDTH, ReadAnswer, Refusal};

// Four words for each record.
fn four_each(words: usize, room: usize) -> bool
    ensures { result ≡ eqb words (record_width * room) }
{
    words / RECORD_WIDTH == room && words % RECORD_WIDTH == 0
}

// 5 and 6 are looked for before the list's 3.
fn work_refusal(state: &[u32], scratch: &[u32]) -> Refusal
    ensures { number_of result ≡ work_refusal state.now scratch.now }
{
    if !tcd_state::valid_state(tcd_style::READER, state, scratch.len()) {
        return Refusal::State;
    }
    if state[3] == tcd_style::NOT_YET_INCLUDED {
        return Refusal::Layers;
    }
    Refusal::List
}

// The read into the work list, which must have four words for each record that there is room for.
pub fn read_numbers(
    state: &mut [u32],
    scratch: &mut [u32],
    src: &[u8],
    markers: Markers,
    reports: &mut [u32],
    work: &mut [u32],
    room: usize,
) -> ReadAnswer
    ensures { read_result as_words state.new scratch.new reports.new work.new result
        ≡ read_numbers state.old scratch.old markers src.now reports.old
        work.old room }
{
    if !four_each(work.len(), room) {
        return ReadAnswer::refused(work_refusal(state, scratch));
    }
    t2_read_packet::read(state, scratch, src, markers, reports, work)
}

// How many records a read stores: as many as it found, all where it wiped them, and none where it changed nothing.
pub fn to_fill(a: ReadAnswer, room: usize) -> usize
    ensures { result ≡ to_fill a room }
{
    if a.refusal == 0 {
        return a.segments as usize;
    }
    if a.refusal == u32::from(Refusal::Width) {
        return room;
    }
    if a.refusal == u32::from(Refusal::HeaderEnd) {
        return room;
    }
    if a.refusal == u32::from(Refusal::Records) {
        return room;
    }
    0
}
