// The starts with the bands as nine words.
#![tactic(auto)]

ghost use Rattle.std.specs.Prelude.{◌≡◌};
ghost use Rattle.t800.specs.State.{writer, reader};
ghost use Rattle.t800.specs.Exports.{start_call};

use t800::Refusal;

// Gives 0 or a refusal.
pub fn start_writer(count: u32, bands: &[u32], style: u8, planes: &[u32], state: &mut [u32]) -> u32
    ensures { record { answer = result; state = state.new }
        ≡ start_call writer count bands.now style planes.now state.old }
{
    if bands.len() != 9 {
        return u32::from(Refusal::List);
    }
    let given = tonkelvi_bands::bands_in(bands);
    t2_start::start_writer(count, given, style, planes, state)
}

// Gives 0 or a refusal; the planes are to be an empty list.
pub fn start_reader(count: u32, bands: &[u32], style: u8, planes: &[u32], state: &mut [u32]) -> u32
    ensures { record { answer = result; state = state.new }
        ≡ start_call reader count bands.now style planes.now state.old }
{
    if bands.len() != 9 {
        return u32::from(Refusal::List);
    }
    let given = tonkelvi_bands::bands_in(bands);
    t2_start::start_reader(count, given, style, planes, state)
}
