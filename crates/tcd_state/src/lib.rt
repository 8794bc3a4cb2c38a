// What a state must meet: refusal 5, over its first words, its bands and its length.
#![tactic(auto)]

ghost use Rattle.std.specs.Prelude.{◌≡◌, cond, ◌&&◌, ◌≤◌, length, take, leb};
ghost use Rattle.t800.specs.State.{state_length};
ghost use Rattle.t800.specs.Ranges.{bands_in_range, valid_state};
ghost use Rattle.tcd_laws.specs.Geometry.{AllUpTo64};
ghost use Rattle.tcd_state.specs.Front.{words_in_front, unless_0};

use t800::Band;

// Where the words of the bands end, if they are there and in range.
fn bands_in_range(states: &[u32], bands: [Band; 3], n: usize) -> Option<usize>
    requires { (n ≤ 3) × AllUpTo64 (take n bands) × (13 ≤ length states.now) }
    ensures { result ≡ cond (leb (state_length (take n bands)) (length states.now) && bands_in_range states.now 13 (take n bands))
        (Some (state_length (take n bands))) None }
{
    let mut at: usize = 13;
    for &band in &bands[..n] {
        let nodes = tcd_layout::band_nodes(band);
        let blocks = tcd_layout::band_blocks(band);
        let end = at + 6 * nodes + 4 * blocks;
        if states.len() < end {
            return None;
        }
        if !tcd_band_ranges::band_in_range(states, at, band, nodes) {
            return None;
        }
        at = end;
    }
    Some(at)
}

// The words of the state in front of a list of states; `None` where refusal 5 is given for it.
pub fn state_in_front(role: u32, states: &[u32]) -> Option<usize>
    ensures { result ≡ unless_0 (words_in_front role states.now) }
{
    if states.len() < 13 {
        return None;
    }
    let bands = tcd_first_words::bands_of(states);
    if !tcd_first_words::first_words_in_range(role, states, bands) {
        return None;
    }
    let n = tcd_first_words::word(states, 1) as usize;
    bands_in_range(states, bands, n)
}

// Whether refusal 5 is not given: a state for this role with no words behind it, and a scratch as long.
pub fn valid_state(role: u32, state: &[u32], scratch_len: usize) -> bool
    ensures { result ≡ valid_state role state.now scratch_len }
{
    let Some(words) = state_in_front(role, state) else {
        return false;
    };
    words == state.len() && scratch_len == words
}
