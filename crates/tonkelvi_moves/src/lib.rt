// Headers gathered in front and spread back, with the lent list of answer words.
#![tactic(auto)]

ghost use Rattle.std.specs.Prelude.{◌≡◌};
ghost use Rattle.t800.specs.Exports.{gather_call, spread_call};

use t800::{Markers, Refusal};

// Answers the bytes put in headers and in bodies.
pub fn gather_headers(
    row: &[u8],
    states: &[u32],
    scratch: &mut [u32],
    places: &[u32],
    sop: bool,
    eph: bool,
    headers: &mut [u8],
    bodies: &mut [u8],
    answer: &mut [u64],
) -> u32
    ensures { record {
      refusal = result;
      scratch = scratch.new;
      headers = headers.new;
      bodies = bodies.new;
      answer = answer.new;
    }
        ≡ gather_call row.now states.now scratch.old places.now
        (record { sop = sop; eph = eph }) headers.old bodies.old answer.old }
{
    if answer.len() != 2 {
        return u32::from(Refusal::List);
    }
    let r = t2_gather::gather(
        row,
        states,
        scratch,
        places,
        Markers { sop, eph },
        headers,
        bodies,
    );
    lists::copy(&[r.headers, r.bodies], answer);
    r.refusal
}

// Answers the bytes put in the row.
pub fn spread_headers(
    headers: &[u8],
    bodies: &[u8],
    states: &[u32],
    scratch: &mut [u32],
    places: &[u32],
    sop: bool,
    eph: bool,
    row: &mut [u8],
    answer: &mut [u64],
) -> u32
    ensures { record { refusal = result; scratch = scratch.new; row = row.new; answer = answer.new }
        ≡ spread_call headers.now bodies.now states.now scratch.old places.now
        (record { sop = sop; eph = eph }) row.old answer.old }
{
    if answer.len() != 1 {
        return u32::from(Refusal::List);
    }
    let r = t2_spread::spread(
        headers,
        bodies,
        states,
        scratch,
        places,
        Markers { sop, eph },
        row,
    );
    lists::copy(&[r.bytes], answer);
    r.refusal
}
