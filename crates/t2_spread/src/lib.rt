// Headers gathered in PPT marker segments moved back to their packets (SCOPE S22).
#![tactic(auto)]

ghost use Rattle.std.specs.Prelude.{◌≡◌, false, length};
ghost use Rattle.t800.specs.RefusalNumbers.{number_of};
ghost use Rattle.t800.specs.Base.{wiped};
ghost use Rattle.t800.specs.PackedHeaders.{unpacked};
ghost use Rattle.t800.specs.Gathered.{bad_states, spread};
ghost use Rattle.t2_spread.specs.Answers.{SpreadsAll, LooksFirst, spread_result};

use t800::{Markers, Refusal, WriteAnswer};

// The bytes put, or 10 where header bytes or others are left.
fn spread_all(
    segments: &[u8],
    plain: usize,
    bodies: &[u8],
    states: &[u32],
    scratch: &mut [u32],
    places: &[u32],
    m: Markers,
    row: &mut [u8],
) -> Result<u64, Refusal>
    requires { (bad_states states.now (length scratch.old) places.now ≡ false) × ((unpacked segments.now).refusal ≡ 0)
        × (plain ≡ length (unpacked segments.now).bytes) }
    ensures { SpreadsAll segments.now bodies.now m states.now places.now
        row.old scratch.new row.new result }
{
    lists::copy(states, scratch);
    let o = t2_spread_row::spread_packets(
        segments, plain, bodies, states, scratch, places, m, row,
    )?;
    if o.headers < plain {
        return Err(Refusal::Body);
    }
    if o.bodies < bodies.len() {
        return Err(Refusal::Body);
    }
    Ok(o.row as u64)
}

// How many header bytes there are: 16 before 5.
fn look_first(
    segments: &[u8],
    states: &[u32],
    scratch: usize,
    places: &[u32],
) -> Result<usize, Refusal>
    ensures { LooksFirst segments.now states.now scratch places.now result }
{
    let plain = t2_unpack_headers::unpack(segments)?;
    if !tcd_states::states_fit(states, scratch, places) {
        return Err(Refusal::State);
    }
    Ok(plain)
}

fn refuse(scratch: &mut [u32], row: &mut [u8], why: Refusal) -> WriteAnswer
    ensures { spread_result result scratch.new row.new
        ≡ spread_result (record { refusal = number_of why; bytes = 0 }) (wiped scratch.old) (wiped row.old) }
{
    lists::wipe(scratch);
    lists::wipe(row);
    WriteAnswer::refused(why)
}

// ---- the call

pub fn spread(
    headers: &[u8],
    bodies: &[u8],
    states: &[u32],
    scratch: &mut [u32],
    places: &[u32],
    m: Markers,
    row: &mut [u8],
) -> WriteAnswer
    ensures { record { answer = result; scratch = scratch.new; row = row.new }
        ≡ spread headers.now bodies.now states.now scratch.old places.now m
        row.old }
{
    let plain = match look_first(headers, states, scratch.len(), places) {
        Ok(plain) => plain,
        Err(why) => return refuse(scratch, row, why),
    };
    match spread_all(headers, plain, bodies, states, scratch, places, m, row) {
        Ok(bytes) => WriteAnswer { refusal: 0, bytes },
        Err(why) => refuse(scratch, row, why),
    }
}
