// The bands of an exported start, from nine words, and the length of the state that it asks for.
#![tactic(auto)]

ghost use Rattle.std.specs.Prelude.{◌≡◌};
ghost use Rattle.t800.specs.Exports.{state_length_of};

pub use tcd_layout::bands_in;

pub fn state_length_of(count: u32, bands: &[u32]) -> usize
    ensures { result ≡ state_length_of count bands.now }
{
    if bands.len() != 9 {
        return 0;
    }
    let given = bands_in(bands);
    if tcd_shape::bad_shape(count, given) {
        return 0;
    }
    tcd_layout::state_length(given, count as usize)
}
