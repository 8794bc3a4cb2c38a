// What turns a packet away before it is written (t2.rs): refusals 5, 6, 3, 7, 8 and 9.
#![tactic(auto)]

ghost use Rattle.std.specs.Prelude.{◌≡◌, true, ◌≤◌, length};
ghost use Rattle.t800.specs.RefusalNumbers.{word_of};
ghost use Rattle.t800.specs.State.{writer};
ghost use Rattle.t800.specs.Ranges.{valid_state};
ghost use Rattle.t800.specs.Base.{sum};
ghost use Rattle.t800.specs.WriteHeader.{contribution};
ghost use Rattle.t2_refusal_laws.specs.Refusals.{contribution_refusal, measure_refusal_for};
ghost use Rattle.t2_refusals.specs.Lists.{wrong_lengths};

use t800::Refusal;

// ---- the lists (3)

// The sum of pass counts, where they are no more than a precinct has blocks.
fn passes_of(counts: &[u32]) -> u64
    ensures { length counts.now ≤ 12288 → result ≡ sum counts.now }
{
    if 12288 < counts.len() {
        return 0;
    }
    t2_narrow::total(counts)
}

// From the lists' lengths alone.
#[tactic(auto, unfolding(crate::specs::Lists::wrong_lengths))]
fn wrong_lists(blocks: usize, counts: usize, lengths: usize, marks: usize, passes: u64) -> bool
    ensures { result ≡ wrong_lengths counts lengths marks blocks passes }
{
    counts != blocks || lengths as u64 != passes || marks as u64 != passes
}

// ---- all of them

// 3, 7, 8 and 9, of a state that 5 lets pass and counts that add up to `passes`.
fn contribution_refusal(
    state: &[u32],
    counts: &[u32],
    lengths: &[u32],
    marks: &[u8],
    passes: u64,
) -> Option<Refusal>
    requires { (valid_state writer state.now (length state.now) ≡ true)
        × (length counts.now ≤ 12288 → passes ≡ sum counts.now) }
    ensures { word_of result ≡ contribution_refusal state.now
        (contribution counts.now lengths.now marks.now) }
{
    let bands = tcd_first_words::bands_of(state);
    let n = state[1] as usize;
    let blocks = tcd_layout::num_blocks(bands, n);
    if wrong_lists(blocks, counts.len(), lengths.len(), marks.len(), passes) {
        return Some(Refusal::List);
    }
    if tcd_shape::any_over(counts, 164) {
        return Some(Refusal::Passes);
    }
    t2_widths::segments_refusal(state, bands, n, counts, lengths, marks)
}

// 6, 3, 7, 8 and 9: what is left of measuring's refusals of a state that 5 lets pass. `passes` is the sum of the counts.
pub fn refusal_of_valid(
    state: &[u32],
    counts: &[u32],
    lengths: &[u32],
    marks: &[u8],
    passes: u64,
) -> Option<Refusal>
    requires { (valid_state writer state.now (length state.now) ≡ true)
        × (length counts.now ≤ 12288 → passes ≡ sum counts.now) }
    ensures { word_of result ≡ measure_refusal_for state.now (length state.now)
        (contribution counts.now lengths.now marks.now) }
{
    if state[3] == tcd_style::NOT_YET_INCLUDED {
        return Some(Refusal::Layers);
    }
    contribution_refusal(state, counts, lengths, marks, passes)
}

// The refusal of measuring.
pub fn measure_refusal(
    state: &[u32],
    scratch_len: usize,
    counts: &[u32],
    lengths: &[u32],
    marks: &[u8],
) -> Option<Refusal>
    ensures { word_of result ≡ measure_refusal_for state.now scratch_len
        (contribution counts.now lengths.now marks.now) }
{
    if !tcd_state::valid_state(tcd_style::WRITER, state, scratch_len) {
        return Some(Refusal::State);
    }
    refusal_of_valid(state, counts, lengths, marks, passes_of(counts))
}
