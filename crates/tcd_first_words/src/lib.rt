// The thirteen words before a state's first band, and the bands that they name: part of refusal 5.
#![tactic(auto)]

ghost use Rattle.std.specs.Prelude.{◌≡◌, ◌||◌, ◌+◌, ◌*◌, ◌≤◌, length, get_or, ltb, eqb};
ghost use Rattle.t800.specs.Base.{every};
ghost use Rattle.tcd_laws.specs.Parts.{shape_in_range, first_words_in_range, three_bands};

use t800::Band;
use tcd_style::Style;

pub fn word(state: &[u32], i: usize) -> u32
    ensures { result ≡ get_or state.now i 0 }
{
    state.get(i).copied().unwrap_or(0)
}

// The bands that a state names, used or not.
pub fn bands_of(state: &[u32]) -> [Band; 3]
    requires { 13 ≤ length state.now }
    ensures { result ≡ three_bands state.now }
{
    tcd_layout::bands_in(&state[4..])
}

fn unused_bands_zero(state: &[u32], n: u32) -> bool
    ensures { result ≡ every 9 (λ i. ltb i (3 * n) || eqb (get_or state.now (4 + i) 0) 0) }
{
    let used = 3 * n as usize;
    for i in used..9 {
        if word(state, 4 + i) != 0 {
            return false;
        }
    }
    true
}

fn shape_in_range(role: u32, state: &[u32], bands: [Band; 3]) -> bool
    requires { bands ≡ three_bands state.now }
    ensures { result ≡ shape_in_range role state.now }
{
    word(state, 0) == role && !tcd_shape::bad_shape(word(state, 1), bands)
}

// The thirteen words before the first band's.
pub fn first_words_in_range(role: u32, state: &[u32], bands: [Band; 3]) -> bool
    requires { bands ≡ three_bands state.now }
    ensures { result ≡ first_words_in_range role state.now }
{
    if !shape_in_range(role, state, bands) {
        return false;
    }
    let style = Style {
        bits: word(state, 2),
    };
    if style.is_refused() {
        return false;
    }
    if tcd_style::NOT_YET_INCLUDED < word(state, 3) {
        return false;
    }
    let n = word(state, 1);
    if tcd_shape::band_too_deep(bands, n as usize) {
        return false;
    }
    unused_bands_zero(state, n)
}
