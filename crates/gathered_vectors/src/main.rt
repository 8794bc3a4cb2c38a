// Runs the calls of the file `gathered`, which tools/make_gathered_vectors.py wrote, and compares every answer and every list that a call
// leaves. All answers are by the scope (docs/SCOPE.md) alone.
#![tactic(auto)]

use listed_calls::{MOST_WORDS, OUTPUT, RECORDS, REPORTS, Reader, SCRATCH, Score};
use std::alloc::{AllocError, Global};
use std::io;
use std::rt::Files;

const MOST_BYTES: usize = 4096;

enum Kind {
    Load,
    Poke,
    Read,
    Gather,
    Spread,
}

impl From<u32> for Kind {
    fn from(n: u32) -> Kind {
        match n {
            0 => Kind::Load,
            1 => Kind::Poke,
            2 => Kind::Read,
            3 => Kind::Gather,
            _ => Kind::Spread,
        }
    }
}

// Words of the state and of scratch, markers, words of reports and of records, how many header bytes and bytes beside; these lists; and then
// what is expected.
fn read(alloc: Global, list: &mut Reader<'_>, states: &mut [u32]) -> Result<bool, AllocError> {
    let used = list.size().min(states.len());
    let mut scratch = vec![in alloc; SCRATCH; list.size().min(MOST_WORDS)]?;
    let markers = listed_calls::markers_of(u64::from(list.word()));
    let mut reports = vec![in alloc; REPORTS; list.size().min(MOST_WORDS)]?;
    let mut records = vec![in alloc; RECORDS; list.size().min(MOST_WORDS)]?;
    let [headers, src] = [list.size(), list.size()];
    let headers = list.padded_bytes(headers);
    let src = list.padded_bytes(src);
    let state = &mut states[..used];
    let r = t2_read_gathered::read_gathered(
        state,
        &mut scratch,
        headers,
        src,
        markers,
        &mut reports,
        &mut records,
    );
    Ok(list.has_words(&[
        u64::from(r.refusal),
        u64::from(r.present),
        r.headers,
        r.taken,
        r.segments,
        u64::from(r.sop),
        u64::from(r.eph),
        r.past,
        listed_calls::checksum(state),
        listed_calls::checksum(&scratch),
        listed_calls::checksum(&reports),
        listed_calls::checksum(&records),
    ]))
}

// Words of the states and of scratch, markers, how many places, bytes of the row, bytes lent for headers and for bodies; places and row; and
// then what is expected.
fn gather(alloc: Global, list: &mut Reader<'_>, states: &[u32]) -> Result<bool, AllocError> {
    let used = list.size().min(states.len());
    let mut scratch = vec![in alloc; SCRATCH; list.size().min(MOST_WORDS)]?;
    let markers = listed_calls::markers_of(u64::from(list.word()));
    let [places, row] = [list.size(), list.size()];
    let mut headers = vec![in alloc; OUTPUT; list.size().min(MOST_BYTES)]?;
    let mut bodies = vec![in alloc; OUTPUT; list.size().min(MOST_BYTES)]?;
    let places = list.words(alloc, places)?;
    let row = list.padded_bytes(row);
    let r = t2_gather::gather(
        row,
        &states[..used],
        &mut scratch,
        &places,
        markers,
        &mut headers,
        &mut bodies,
    );
    Ok(list.has_words(&[
        u64::from(r.refusal),
        r.headers,
        r.bodies,
        listed_calls::checksum(&scratch),
        listed_calls::checksum(&headers),
        listed_calls::checksum(&bodies),
    ]))
}

// Words of the states and of scratch, markers, how many places, bytes of segments and of bodies, bytes lent for the row; these lists; and
// then what is expected.
fn spread(alloc: Global, list: &mut Reader<'_>, states: &[u32]) -> Result<bool, AllocError> {
    let used = list.size().min(states.len());
    let mut scratch = vec![in alloc; SCRATCH; list.size().min(MOST_WORDS)]?;
    let markers = listed_calls::markers_of(u64::from(list.word()));
    let [places, headers, bodies] = [list.size(), list.size(), list.size()];
    let mut row = vec![in alloc; OUTPUT; list.size().min(MOST_BYTES)]?;
    let places = list.words(alloc, places)?;
    let headers = list.padded_bytes(headers);
    let bodies = list.padded_bytes(bodies);
    let r = t2_spread::spread(
        headers,
        bodies,
        &states[..used],
        &mut scratch,
        &places,
        markers,
        &mut row,
    );
    Ok(list.has_words(&[
        u64::from(r.refusal),
        r.bytes,
        listed_calls::checksum(&scratch),
        listed_calls::checksum(&row),
    ]))
}

// Whether the call had an answer, as listed.
fn call(alloc: Global, list: &mut Reader<'_>, states: &mut [u32]) -> Result<bool, AllocError> {
    match Kind::from(list.word()) {
        Kind::Load => list.load(states),
        Kind::Poke => list.poke(states),
        Kind::Read => return read(alloc, list, states),
        Kind::Gather => return gather(alloc, list, states),
        Kind::Spread => return spread(alloc, list, states),
    }
    Ok(false)
}

// The list begins with how many calls and answers it has, and ends with the last call.
fn run(alloc: Global, list: &[u8]) -> Result<Score, AllocError> {
    let mut reader = Reader::new(list);
    let calls = reader.size().min(list.len());
    let mut score = Score {
        of: u64::from(reader.word()),
        ..Score::default()
    };
    let mut states = vec![in alloc; 0; MOST_WORDS]?;
    for _ in 0..calls {
        score.count(call(alloc, &mut reader, &mut states)?);
    }
    score.whole = reader.at / 4 == list.len() / 4;
    Ok(score)
}

fn run_gathered<R: Files + AllocGlobal>(rt: &R) -> Result<Score, AllocError> {
    match listed_calls::list_in(rt, "gathered") {
        Some(list) => run(rt.alloc(), &list),
        None => Ok(Score::default()),
    }
}

fn main(rt: HostRuntime) -> io::Result<()> {
    let score = run_gathered(&rt)?;
    if score.whole {
        println!(rt; "gathered: {score}")
    } else {
        println!(rt; "gathered: {score}, the list is missing, cut or too long")
    }
}
