// A packet header read after its first bit (opj_t2_read_packet_header of t2.rs): its bands, and its end.
#![tactic(auto)]

ghost use Rattle.std.specs.Prelude.{◌≡◌, true, ◌*◌, ◌<◌, length};
ghost use Rattle.t800.specs.State.{reader, layer, bands, blocks, not_yet_included};
ghost use Rattle.t800.specs.Ranges.{valid_state};
ghost use Rattle.t2_read_segments.specs.Reading.{reading, BitsIn};
ghost use Rattle.t2_read_header.specs.Header.{ReadsHeader, start_of, next_header};
ghost use Rattle.t800.specs.Reports.{report_width};

use t2_read_segments::Run;
use t800::{Bio, RECORD_WIDTH, Refusal};

// Of the state in `words`, after the first bit, with room for so many records, of which those are stored that are lent. Inlined, as
// a call's arguments cost a good part of what a block does.
#[inline(always)]
pub fn read_header(
    words: &mut [u32],
    reports: &mut [u32],
    records: &mut [u32],
    src: &[u8],
    b: Bio,
    room: usize,
) -> Run
    requires { (valid_state reader words.old (length words.old) ≡ true) × (layer words.old < not_yet_included)
        × (BitsIn src.now b) }
    ensures { reading words.new reports.new records.new result
        ≡ next_header src.now (reading words.old reports.old records.old (start_of room b)) }
{
    let bands = tcd_first_words::bands_of(words);
    let n = words[1] as usize;
    let layer = words[3];
    let start = Run {
        bio: b,
        count: 0,
        room,
        bytes: 0,
        refusal: 0,
    };
    let run = t2_read_bands::read_bands(words, reports, records, src, start, bands, n, layer);
    if run.refusal != 0 {
        return run;
    }
    let end = bio_read_end::opj_bio_inalign(src, run.bio);
    if end.ok {
        return run;
    }
    t2_read_segments::refuse(run, Refusal::HeaderEnd)
}

// Into lists with a report for each block. Where the header is refused, the contract gives the number and that the place of the bits
// is in reach of the input, and leaves open what the three lists hold, how many records there are and where in reach that place is: a
// refused header carries its number alone (P5 of docs/DECISIONS.md), and the call wipes the lists (SCOPE S5).
pub fn opj_t2_read_packet_header(
    words: &mut [u32],
    reports: &mut [u32],
    records: &mut [u32],
    src: &[u8],
    b: Bio,
) -> Run
    requires { (valid_state reader words.old (length words.old) ≡ true) × (layer words.old < not_yet_included)
        × (length reports.old ≡ report_width * length (blocks (bands words.old))) × (BitsIn src.now b) }
    ensures { ReadsHeader src.now reports.old records.old words.old b
        (reading words.new reports.new records.new result) }
{
    let room = records.len() / RECORD_WIDTH;
    read_header(words, reports, records, src, b, room)
}
