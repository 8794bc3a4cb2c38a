// What turns a packet away before it is looked at (t2.rs).
#![tactic(auto)]

ghost use Rattle.std.specs.Prelude.{◌≡◌};
ghost use Rattle.t800.specs.Packet.{read_refusal, refused_answer};
ghost use Rattle.t800.specs.RefusalNumbers.{word_of};

use t800::{REPORT_WIDTH, ReadAnswer, Refusal};

pub fn read_refusal(state: &[u32], scratch: &[u32], reports: &[u32]) -> Option<Refusal>
    ensures { word_of result ≡ read_refusal state.now scratch.now reports.now }
{
    if !tcd_state::valid_state(tcd_style::READER, state, scratch.len()) {
        return Some(Refusal::State);
    }
    if state[3] == tcd_style::NOT_YET_INCLUDED {
        return Some(Refusal::Layers);
    }
    let bands = tcd_first_words::bands_of(state);
    let n = state[1] as usize;
    let blocks = tcd_layout::num_blocks(bands, n);
    if reports.len() != REPORT_WIDTH * blocks {
        return Some(Refusal::List);
    }
    None
}

// By the number that a reading stopped with.
pub fn refused(why: u32) -> ReadAnswer
    ensures { result ≡ refused_answer why }
{
    ReadAnswer {
        refusal: why,
        present: 0,
        taken: 0,
        segments: 0,
        sop: 0,
        eph: 0,
        past: 0,
    }
}
