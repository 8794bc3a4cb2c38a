// What rules refusals 8 and 9 out (t2.rs): lengths that add up to few bytes, and few length bits.
#![tactic(auto)]

ghost use Rattle.std.specs.Prelude.{◌≡◌, ◌&&◌, ◌+◌, ◌*◌, ◌^◌, ◌≤◌, length, take, ltb, leb};
ghost use Rattle.t800.specs.Base.{every, sum};
ghost use Rattle.t800.specs.State.{state_length, length_bits};
ghost use Rattle.tcd_laws.specs.Geometry.{AllUpTo64};
ghost use Rattle.t2_narrow.specs.Narrow.{bits_up_to25};

use t800::Band;

pub fn total(list: &[u32]) -> u64
    requires { length list.now ≤ 4294967296 }
    ensures { result ≡ sum list.now }
{
    let mut all = 0;
    for one in list {
        all += u64::from(*one);
    }
    all
}

// n blocks whose words begin at `at`. Looks at all of them, so that the loop vectorises.
fn blocks_up_to_25_bits(state: &[u32], at: usize, n: usize) -> bool
    requires { at + 4 * n ≤ length state.now }
    ensures { result ≡ every n (λ i. leb (length_bits state.now (at + 4 * i)) 25) }
{
    let mut faults = 0;
    for i in 0..n {
        let block = at + 4 * i;
        faults |= tcd_shape::over(state[block + 1], 25);
    }
    faults == 0
}

fn bands_up_to_25_bits(state: &[u32], bands: [Band; 3], n: usize) -> bool
    requires { (n ≤ 3) × AllUpTo64 (take n bands) × (length state.now ≡ state_length (take n bands)) }
    ensures { result ≡ bits_up_to25 state.now 13 (take n bands) }
{
    let mut at = 13;
    for band in &bands[..n] {
        let first = at + 6 * tcd_layout::band_nodes(*band);
        let size = tcd_layout::band_blocks(*band);
        if !blocks_up_to_25_bits(state, first, size) {
            return false;
        }
        at = first + 4 * size;
    }
    true
}

// Lengths below 2^24 take at most 24 bits, and 25 length bits leave room for the logarithm of 164 passes.
pub fn surely_narrow(state: &[u32], bands: [Band; 3], n: usize, lengths: &[u32]) -> bool
    requires { (n ≤ 3) × AllUpTo64 (take n bands) × (length state.now ≡ state_length (take n bands))
        × (length lengths.now ≤ 4294967296) }
    ensures { result ≡ (ltb (sum lengths.now) (2 ^ 24) && bits_up_to25 state.now 13 (take n bands)) }
{
    if 0x100_0000 <= total(lengths) {
        return false;
    }
    bands_up_to_25_bits(state, bands, n)
}
