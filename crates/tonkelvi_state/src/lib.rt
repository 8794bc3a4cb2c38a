// What a lent state is: its role, next layer and number of blocks (tonkelvi_describe).
#![tactic(auto)]

ghost use Rattle.std.specs.Prelude.{◌≡◌, true, length};
ghost use Rattle.t800.specs.State.{bands, blocks};
ghost use Rattle.t800.specs.Exports.{any_state, describe_call};

use t800::Refusal;

fn any_state(state: &[u32]) -> bool
    ensures { result ≡ any_state state.now }
{
    if tcd_state::valid_state(tcd_style::WRITER, state, state.len()) {
        return true;
    }
    tcd_state::valid_state(tcd_style::READER, state, state.len())
}

fn num_blocks(state: &[u32]) -> usize
    requires { any_state state.now ≡ true }
    ensures { result ≡ length (blocks (bands state.now)) }
{
    let bands = tcd_first_words::bands_of(state);
    let n = tcd_first_words::word(state, 1) as usize;
    tcd_layout::num_blocks(bands, n)
}

pub fn describe(state: &[u32], answer: &mut [u64]) -> u32
    ensures { record { refusal = result; answer = answer.new } ≡ describe_call state.now answer.old }
{
    if answer.len() != 3 {
        return u32::from(Refusal::List);
    }
    if !any_state(state) {
        lists::copy(&[0, 0, 0], answer);
        return u32::from(Refusal::State);
    }
    let role = tcd_first_words::word(state, 0) as u64;
    let layer = tcd_first_words::word(state, 3) as u64;
    let blocks = num_blocks(state) as u64;
    lists::copy(&[role, layer, blocks], answer);
    0
}
