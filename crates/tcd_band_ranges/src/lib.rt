// The words of a band in a state, its tree nodes and its blocks: whether they are in range.
#![tactic(auto)]

ghost use Rattle.std.specs.Prelude.{◌≡◌, cond, ◌&&◌, ◌||◌, ◌+◌, ◌*◌, ◌≤◌, length, leb, eqb};
ghost use Rattle.t800.specs.Base.{every};
ghost use Rattle.t800.specs.State.{writer, band_nodes, band_length};
ghost use Rattle.t800.specs.Ranges.{node_in_range, block_in_range, band_in_range};
ghost use Rattle.tcd_laws.specs.Parts.{fault};
ghost use Rattle.tcd_band_ranges.specs.BlockParts.{LimitsOf, is_one_of, length_bits_in_range, segment_in_range, block_words_in_range};

use t800::Band;
use tcd_style::Style;

// The limits that a style gives: of a first segment, and of one after a limit 2 and any other.
#[derive(Clone, Copy)]
pub struct Limits {
    pub first: u32,
    pub second: u32,
    pub third: u32,
}

fn node_fault(value: u32, low: u32, known: u32, most: u32) -> u32
    ensures { result ≡ fault (leb value most && leb low most && leb known 1) }
{
    tcd_shape::over(value, most) | tcd_shape::over(low, most) | tcd_shape::over(known, 1)
}

// Looks at all nodes, so that the loop vectorises.
fn nodes_in_range(state: &[u32], at: usize, n: usize, most: u32) -> bool
    requires { at + 3 * n ≤ length state.now }
    ensures { result ≡ every n (λ i. node_in_range state.now most (at + 3 * i)) }
{
    let mut faults = 0;
    for i in 0..n {
        let node = at + 3 * i;
        faults |= node_fault(state[node], state[node + 1], state[node + 2], most);
    }
    faults == 0
}

fn chosen(none: bool, a: u32, b: u32) -> u32
    ensures { result ≡ cond none a b }
{
    if none { a } else { b }
}

fn length_bits_fault(passes: u32, bits: u32) -> u32
    ensures { result ≡ fault (length_bits_in_range passes bits) }
{
    let none = passes == 0;
    let least = chosen(none, 0, 3);
    let most = chosen(none, 0, 32);
    tcd_shape::over(least, bits) | tcd_shape::over(bits, most)
}

#[tactic(auto, unfolding(t800::specs::State::writer))]
fn has_no_segment(role: u32, passes: u32) -> bool
    ensures { result ≡ (eqb passes 0 || eqb role writer) }
{
    passes == 0 || role == tcd_style::WRITER
}

fn limits_of(style: Style) -> Limits
    ensures { LimitsOf style.bits result }
{
    Limits {
        first: style.first_limit(),
        second: style.next_limit(2),
        third: style.next_limit(1),
    }
}

fn differs(a: u32, b: u32) -> u32
    ensures { result ≡ fault (eqb a b) }
{
    u32::from(a != b)
}

fn limit_fault(limits: Limits, limit: u32) -> u32
    ensures { result ≡ fault (is_one_of limits limit) }
{
    differs(limit, limits.first) & differs(limit, limits.second) & differs(limit, limits.third)
}

// Where there is no segment the limit is 0, and the passes are at most that.
fn segment_fault(role: u32, limits: Limits, passes: u32, limit: u32, used: u32) -> u32
    ensures { result ≡ fault (segment_in_range role limits passes limit used) }
{
    let none = has_no_segment(role, passes);
    let least = chosen(none, 0, 1);
    let wrong = chosen(none, differs(limit, 0), limit_fault(limits, limit));
    wrong | tcd_shape::over(least, used) | tcd_shape::over(used, limit)
}

fn passes_fault(passes: u32, layer: u32) -> u32
    ensures { result ≡ fault (leb passes (164 * layer)) }
{
    u32::from(164 * u64::from(layer) < u64::from(passes))
}

fn block_fault(
    role: u32,
    limits: Limits,
    layer: u32,
    passes: u32,
    bits: u32,
    limit: u32,
    used: u32,
) -> u32
    ensures { result ≡ fault (block_words_in_range role limits layer passes bits limit used) }
{
    passes_fault(passes, layer)
        | length_bits_fault(passes, bits)
        | segment_fault(role, limits, passes, limit, used)
}

// Looks at all blocks, so that the loop vectorises.
fn blocks_in_range(state: &[u32], at: usize, n: usize) -> bool
    requires { at + 4 * n ≤ length state.now }
    ensures { result ≡ every n (λ i. block_in_range state.now (at + 4 * i)) }
{
    let role = tcd_first_words::word(state, 0);
    let bits = tcd_first_words::word(state, 2);
    let layer = tcd_first_words::word(state, 3);
    let limits = limits_of(Style { bits });
    let mut faults = 0;
    for i in 0..n {
        let block = at + 4 * i;
        faults |= block_fault(
            role,
            limits,
            layer,
            state[block],
            state[block + 1],
            state[block + 2],
            state[block + 3],
        );
    }
    faults == 0
}

#[tactic(auto, using(t800_laws::proofs::Laws::Layout::band_length_lem))]
pub fn band_in_range(state: &[u32], at: usize, band: Band, nodes: usize) -> bool
    requires { (nodes ≡ band_nodes band) × (at + band_length band ≤ length state.now) }
    ensures { result ≡ band_in_range state.now at band }
{
    let zero_tree = at + 3 * nodes;
    let blocks = zero_tree + 3 * nodes;
    if !nodes_in_range(state, at, nodes, tcd_style::NOT_YET_INCLUDED) {
        return false;
    }
    if !nodes_in_range(state, zero_tree, nodes, tcd_style::NOT_YET_PLANES) {
        return false;
    }
    blocks_in_range(state, blocks, tcd_layout::band_blocks(band))
}
