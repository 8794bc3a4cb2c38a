// Start's checks of a shape and its planes.
#![tactic(auto)]

ghost use Rattle.std.specs.Prelude.{◌≡◌, ◌||◌, ◌≤◌, min, take, ltb, leb};
ghost use Rattle.t800.specs.Base.{any};
ghost use Rattle.t800.specs.State.{blocks};
ghost use Rattle.t800.specs.Ranges.{bad_shape, band_too_deep, block_too_deep};
ghost use Rattle.tcd_laws.specs.Parts.{fault};

use t800::Band;

fn side_over_64(band: Band) -> bool
    ensures { result ≡ (ltb 64 band.across || ltb 64 band.down) }
{
    64 < band.across || 64 < band.down
}

fn any_side_over_64(bands: [Band; 3], n: usize) -> bool
    requires { n ≤ 3 }
    ensures { result ≡ any (λ b. ltb 64 b.across || ltb 64 b.down) (take n bands) }
{
    bands[..n].iter().any(|b| side_over_64(*b))
}

// Refusal 1.
#[tactic(auto, unfolding(t800::specs::Ranges::bad_shape))]
pub fn bad_shape(n: u32, bands: [Band; 3]) -> bool
    ensures { result ≡ bad_shape n (take n bands) }
{
    n == 0 || 3 < n || any_side_over_64(bands, n as usize)
}

// Part of refusal 4: one of the first n bands has more planes than SCOPE S4 allows.
pub fn band_too_deep(bands: [Band; 3], n: usize) -> bool
    requires { n ≤ 3 }
    ensures { result ≡ band_too_deep (take n bands) }
{
    bands[..n].iter().any(|b| 998 < b.planes)
}

pub fn over(x: u32, most: u32) -> u32
    ensures { result ≡ fault (leb x most) }
{
    u32::from(most < x)
}

// Looks at all of them, so that the loop vectorises.
pub fn any_over(planes: &[u32], most: u32) -> bool
    ensures { result ≡ any (λ p. ltb most p) planes.now }
{
    let mut faults = 0;
    for p in planes {
        faults |= over(*p, most);
    }
    faults != 0
}

// Part of refusal 4: a block of the first n bands has more planes than its band.
pub fn block_too_deep(bands: [Band; 3], n: usize, planes: &[u32]) -> bool
    requires { n ≤ 3 }
    ensures { result ≡ block_too_deep (blocks (take n bands)) planes.now }
{
    let mut rest = planes;
    for band in &bands[..n] {
        let size = tcd_layout::band_blocks(*band).min(rest.len());
        let (of_band, after) = rest.split_at(size);
        if any_over(of_band, band.planes) {
            return true;
        }
        rest = after;
    }
    false
}
