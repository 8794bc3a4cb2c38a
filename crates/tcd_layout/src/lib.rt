// Three bands from nine words; where the words of bands lie: lengths and starts, and numbers of blocks (tcd.rs).
#![tactic(auto)]

ghost use Rattle.std.specs.Prelude.{◌≡◌, ◌+◌, ◌≤◌, length, get_or, take};
ghost use Rattle.t800.specs.State.{blocks_in, band_nodes, band_length, state_length, blocks};
ghost use Rattle.t800.specs.Exports.{bands_in};
ghost use Rattle.tcd_laws.specs.Geometry.{SidesUpTo64, AllUpTo64};

use t800::Band;

fn band_at(words: &[u32], at: usize) -> Band
    requires { at + 3 ≤ length words.now }
    ensures { result ≡ record { across = get_or words.now at 0; down = get_or words.now (at + 1) 0; planes = get_or words.now (at + 2) 0 } }
{
    Band {
        across: words[at],
        down: words[at + 1],
        planes: words[at + 2],
    }
}

// The bands that nine words name, each by three.
pub fn bands_in(words: &[u32]) -> [Band; 3]
    requires { 9 ≤ length words.now }
    ensures { result ≡ bands_in words.now }
{
    [band_at(words, 0), band_at(words, 3), band_at(words, 6)]
}

#[tactic(auto, unfolding(t800::specs::State::blocks_in))]
pub fn band_blocks(band: Band) -> usize
    ensures { result ≡ blocks_in band }
{
    tcd_levels::area(band.across, band.down)
}

#[tactic(auto, unfolding(t800::specs::State::band_nodes))]
pub fn band_nodes(band: Band) -> usize
    requires { SidesUpTo64 band }
    ensures { result ≡ band_nodes band }
{
    tcd_levels::num_nodes(band.across, band.down)
}

// The words of a band's two trees and blocks.
pub fn band_length(band: Band) -> usize
    requires { SidesUpTo64 band }
    ensures { result ≡ band_length band }
{
    6 * band_nodes(band) + 4 * band_blocks(band)
}

// The words of a state, which is where those of band n begin in a longer one.
pub fn state_length(bands: [Band; 3], n: usize) -> usize
    requires { (n ≤ 3) × AllUpTo64 (take n bands) }
    ensures { result ≡ state_length (take n bands) }
{
    let mut at = 13;
    for band in &bands[..n] {
        at += band_length(*band);
    }
    at
}

// The blocks of the first n bands.
pub fn num_blocks(bands: [Band; 3], n: usize) -> usize
    requires { (n ≤ 3) × AllUpTo64 (take n bands) }
    ensures { result ≡ length (blocks (take n bands)) }
{
    let mut total = 0;
    for band in &bands[..n] {
        total += band_blocks(*band);
    }
    total
}
