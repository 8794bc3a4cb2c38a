// The parts of a start: its refusals, the first words, fresh bands.
#![tactic(auto)]

ghost use Rattle.std.specs.Prelude.{◌≡◌, not, ◌||◌, [], ◌∷◌, ◌++◌, ◌+◌, ◌*◌, ◌≤◌, length, get_or, take, eqb};
ghost use Rattle.std.proofs.lemmas.List.Edits.{sets};
ghost use Rattle.t800.specs.RefusalNumbers.{word_of};
ghost use Rattle.t800.specs.State.{not_yet_included, not_yet_planes, blocks, state_length};
ghost use Rattle.t800.specs.Ranges.{band_too_deep, block_too_deep};
ghost use Rattle.t800.specs.Start.{fresh_nodes, fresh_blocks, fresh_bands, band_words, fresh_state, start_refusal};
ghost use Rattle.tcd_laws.specs.Geometry.{no_band, AllUpTo64};
ghost use Rattle.t2_start_parts.specs.Parts.{planes_wanted};

use t800::{Band, Refusal};
use tcd_style::{NOT_YET_INCLUDED, NOT_YET_PLANES, Style, WRITER};

// A reader is given no planes.
fn planes_wanted(role: u32, bands: [Band; 3], n: usize) -> usize
    requires { (n ≤ 3) × AllUpTo64 (take n bands) }
    ensures { result ≡ planes_wanted role (take n bands) }
{
    if role == WRITER {
        return tcd_layout::num_blocks(bands, n);
    }
    0
}

// Refusal 3.
fn wrong_list(role: u32, bands: [Band; 3], n: usize, planes: &[u32], state: &[u32]) -> bool
    requires { (n ≤ 3) × AllUpTo64 (take n bands) }
    ensures { result ≡ (not (eqb (length state.now) (state_length (take n bands))) || not
        (eqb (length planes.now) (planes_wanted role (take n bands)))) }
{
    state.len() != tcd_layout::state_length(bands, n)
        || planes.len() != planes_wanted(role, bands, n)
}

// Refusal 4.
fn too_deep(bands: [Band; 3], n: usize, planes: &[u32]) -> bool
    requires { (n ≤ 3) × AllUpTo64 (take n bands) }
    ensures { result ≡ (band_too_deep (take n bands) || block_too_deep (blocks (take n bands)) planes.now) }
{
    tcd_shape::band_too_deep(bands, n) || tcd_shape::block_too_deep(bands, n, planes)
}

pub fn refusal(
    role: u32,
    count: u32,
    bands: [Band; 3],
    style: u8,
    planes: &[u32],
    state: &[u32],
) -> Option<Refusal>
    ensures { word_of result ≡ start_refusal role count bands style planes.now state.now }
{
    if tcd_shape::bad_shape(count, bands) {
        return Some(Refusal::Shape);
    }
    let bits = u32::from(style);
    if (Style { bits }).is_refused() {
        return Some(Refusal::Style);
    }
    let n = count as usize;
    if wrong_list(role, bands, n, planes, state) {
        return Some(Refusal::List);
    }
    if too_deep(bands, n, planes) {
        return Some(Refusal::Planes);
    }
    None
}

fn first_words(state: &mut [u32], role: u32, count: u32, style: u32)
    requires { 4 ≤ length state.old }
    ensures { state.new ≡ sets state.old 0 (role ∷ count ∷ style ∷ 0 ∷ []) }
{
    state[0] = role;
    state[1] = count;
    state[2] = style;
    state[3] = 0;
}

// Band i of the first n, and zeros after them.
fn used_band(bands: [Band; 3], n: usize, i: usize) -> Band
    requires { n ≤ 3 }
    ensures { result ≡ get_or (take n bands) i no_band }
{
    if i < n {
        return bands[i];
    }
    Band {
        across: 0,
        down: 0,
        planes: 0,
    }
}

fn put_band(state: &mut [u32], at: usize, band: Band)
    requires { at + 3 ≤ length state.old }
    ensures { state.new ≡ sets state.old at (band.across ∷ band.down ∷ band.planes ∷ []) }
{
    state[at] = band.across;
    state[at + 1] = band.down;
    state[at + 2] = band.planes;
}

fn put_bands(state: &mut [u32], bands: [Band; 3], n: usize)
    requires { (n ≤ 3) × (13 ≤ length state.old) }
    ensures { state.new ≡ sets state.old 4 (band_words (take n bands) 3) }
{
    for i in 0..3 {
        let band = used_band(bands, n, i);
        put_band(state, 4 + 3 * i, band);
    }
}

fn zero_blocks(state: &mut [u32], from: usize, blocks: usize)
    requires { from + 4 * blocks ≤ length state.old }
    ensures { state.new ≡ sets state.old from (fresh_blocks blocks) }
{
    let words = 4 * blocks;
    let to = from + words;
    lists::wipe(&mut state[from..to]);
}

// The trees and blocks of one band.
fn fresh_band(state: &mut [u32], at: usize, nodes: usize, blocks: usize)
    requires { at + (6 * nodes + 4 * blocks) ≤ length state.old }
    ensures { state.new
        ≡ sets state.old at (fresh_nodes not_yet_included nodes ++ fresh_nodes not_yet_planes nodes ++ fresh_blocks blocks) }
{
    let tree = 3 * nodes;
    tgt_set::opj_tgt_reset(state, at, nodes, NOT_YET_INCLUDED);
    let second = at + tree;
    tgt_set::opj_tgt_reset(state, second, nodes, NOT_YET_PLANES);
    let after = second + tree;
    zero_blocks(state, after, blocks);
}

fn fresh_bands(state: &mut [u32], bands: [Band; 3], n: usize)
    requires { (n ≤ 3) × AllUpTo64 (take n bands) × (length state.old ≡ state_length (take n bands)) }
    ensures { state.new ≡ sets state.old 13 (fresh_bands (take n bands)) }
{
    let mut at: usize = 13;
    for &band in &bands[..n] {
        let nodes = tcd_layout::band_nodes(band);
        let blocks = tcd_layout::band_blocks(band);
        fresh_band(state, at, nodes, blocks);
        let words = 6 * nodes + 4 * blocks;
        at += words;
    }
}

pub fn fill(role: u32, count: u32, bands: [Band; 3], style: u8, state: &mut [u32])
    requires { (count ≤ 3) × AllUpTo64 (take count bands) × (length state.old ≡ state_length (take count bands)) }
    ensures { state.new ≡ fresh_state role style (take count bands) }
{
    let n = count as usize;
    first_words(state, role, count, u32::from(style));
    put_bands(state, bands, n);
    fresh_bands(state, bands, n);
}
