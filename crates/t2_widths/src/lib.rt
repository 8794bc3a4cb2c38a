// Refusals 8 and 9 of measuring and writing (t2.rs): a segment too long, a length field too wide.
#![tactic(auto)]

ghost use Rattle.std.specs.Prelude.{◌≡◌, false, ◌+◌, ◌*◌, ◌≤◌, length, take, ltb};
ghost use Rattle.t800.specs.Base.{any};
ghost use Rattle.t800.specs.RefusalNumbers.{word_of};
ghost use Rattle.t800.specs.State.{blocks, blocks_from, blocks_in, band_length, state_length};
ghost use Rattle.t800.specs.WriteHeader.{segment_too_long, field_too_wide};
ghost use Rattle.tcd_laws.specs.Geometry.{SidesUpTo64, AllUpTo64};
ghost use Rattle.t2_widths.specs.Widths.{PassesLeft, wide_from, segments_refusal};

use t800::{Band, Refusal};

// ---- all blocks' segments (8)

fn segment_too_long(counts: &[u32], lengths: &[u32], marks: &[u8]) -> bool
    requires { PassesLeft counts.now lengths.now marks.now }
    ensures { result ≡ segment_too_long counts.now lengths.now marks.now }
{
    let mut from = 0;
    for count in counts {
        let to = from + *count as usize;
        if t2_block_widths::any_segment_too_long(&lengths[from..to], &marks[from..to]) {
            return true;
        }
        from = to;
    }
    false
}

// ---- all blocks' widths (9)

// n blocks whose words begin at `at`. The lists are those of these blocks and any after them.
fn blocks_too_wide(
    state: &[u32],
    at: usize,
    n: usize,
    counts: &[u32],
    lengths: &[u32],
    marks: &[u8],
) -> bool
    requires { (at + 4 * n ≤ length state.now) × (n ≤ length counts.now) × PassesLeft counts.now lengths.now marks.now
        × (segment_too_long counts.now lengths.now marks.now ≡ false) }
    ensures { result ≡ wide_from state.now at n counts.now lengths.now marks.now }
{
    let mut from = 0;
    for i in 0..n {
        let block = at + 4 * i;
        let to = from + counts[i] as usize;
        if t2_block_widths::block_too_wide(
            state[block],
            state[block + 1],
            &lengths[from..to],
            &marks[from..to],
        ) {
            return true;
        }
        from = to;
    }
    false
}

fn band_too_wide(
    state: &[u32],
    at: usize,
    band: Band,
    counts: &[u32],
    lengths: &[u32],
    marks: &[u8],
) -> bool
    requires { SidesUpTo64 band × (at + band_length band ≤ length state.now) × (blocks_in band ≤ length counts.now)
        × PassesLeft counts.now lengths.now marks.now × (segment_too_long counts.now lengths.now marks.now ≡ false) }
    ensures { result ≡ field_too_wide state.now (blocks_from at band (blocks_in band) 0) counts.now
        lengths.now marks.now }
{
    let nodes = tcd_layout::band_nodes(band);
    let size = tcd_layout::band_blocks(band);
    let first = at + 6 * nodes;
    blocks_too_wide(state, first, size, counts, lengths, marks)
}

fn field_too_wide(
    state: &[u32],
    bands: [Band; 3],
    n: usize,
    counts: &[u32],
    lengths: &[u32],
    marks: &[u8],
) -> bool
    requires { (n ≤ 3) × AllUpTo64 (take n bands) × (length state.now ≡ state_length (take n bands))
        × (length counts.now ≡ length (blocks (take n bands))) × PassesLeft counts.now lengths.now marks.now
        × (segment_too_long counts.now lengths.now marks.now ≡ false) }
    ensures { result ≡ field_too_wide state.now (blocks (take n bands)) counts.now lengths.now
        marks.now }
{
    let mut at = 13;
    let mut first = 0;
    let mut from = 0;
    for band in &bands[..n] {
        if band_too_wide(
            state,
            at,
            *band,
            &counts[first..],
            &lengths[from..],
            &marks[from..],
        ) {
            return true;
        }
        let next = first + tcd_layout::band_blocks(*band);
        from += t2_narrow::total(&counts[first..next]) as usize;
        first = next;
        at += tcd_layout::band_length(*band);
    }
    false
}

// ---- both

// 8 and 9, of lists that 3 and 7 let pass: without passes there is no segment, and most other packets are told by their sums alone.
pub fn segments_refusal(
    state: &[u32],
    bands: [Band; 3],
    n: usize,
    counts: &[u32],
    lengths: &[u32],
    marks: &[u8],
) -> Option<Refusal>
    requires { (n ≤ 3) × AllUpTo64 (take n bands) × (length state.now ≡ state_length (take n bands))
        × (length counts.now ≡ length (blocks (take n bands))) × PassesLeft counts.now lengths.now marks.now
        × (length lengths.now ≤ 4294967296) × (any (λ c. ltb 164 c) counts.now ≡ false) }
    ensures { word_of result ≡ segments_refusal state.now (blocks (take n bands)) counts.now lengths.now
        marks.now }
{
    if lengths.is_empty() {
        return None;
    }
    if t2_narrow::surely_narrow(state, bands, n, lengths) {
        return None;
    }
    if segment_too_long(counts, lengths, marks) {
        return Some(Refusal::Length);
    }
    if field_too_wide(state, bands, n, counts, lengths, marks) {
        return Some(Refusal::Width);
    }
    None
}
