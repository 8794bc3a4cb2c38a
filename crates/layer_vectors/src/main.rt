// Runs the layer calls of the file `layer`, which tools/make_layer_vectors.py wrote, and compares every answer and every list that a call
// leaves. All answers are by the scope (docs/SCOPE.md) alone.
#![tactic(auto)]

use listed_calls::{MOST_WORDS, OUTPUT, Reader, SCRATCH, Score};
use std::alloc::{AllocError, Global};
use std::io;
use std::rt::Files;

const MOST_BYTES: usize = 4096;

enum Kind {
    Load,
    Poke,
    Layer,
}

impl From<u32> for Kind {
    fn from(n: u32) -> Kind {
        match n {
            0 => Kind::Load,
            1 => Kind::Poke,
            _ => Kind::Layer,
        }
    }
}

// Words of states and of scratch, markers, how many body bytes, output bytes, numbers, counts, lengths and marks; these lists; and then what
// is expected.
fn layer(alloc: Global, list: &mut Reader<'_>, states: &mut [u32]) -> Result<bool, AllocError> {
    let used = list.size().min(states.len());
    let mut scratch = vec![in alloc; SCRATCH; list.size().min(MOST_WORDS)]?;
    let markers = listed_calls::markers_of(u64::from(list.word()));
    let bodies = listed_calls::body_of(alloc, list.size().min(MOST_BYTES))?;
    let mut output = vec![in alloc; OUTPUT; list.size().min(MOST_BYTES)]?;
    let [numbers, counts, lengths, marks] = [list.size(), list.size(), list.size(), list.size()];
    let numbers = list.words(alloc, numbers)?;
    let counts = list.words(alloc, counts)?;
    let lengths = list.words(alloc, lengths)?;
    let marks = list.padded_bytes(marks);
    let states = &mut states[..used];
    let r = t2_write_layer::write_layer(
        states,
        &mut scratch,
        &numbers,
        &counts,
        &lengths,
        marks,
        &bodies,
        markers,
        &mut output,
    );
    Ok(list.has_words(&[
        u64::from(r.refusal),
        r.place,
        r.bytes,
        listed_calls::checksum(states),
        listed_calls::checksum(&scratch),
        listed_calls::checksum(&output),
    ]))
}

// Whether the call had an answer, as listed.
fn call(alloc: Global, list: &mut Reader<'_>, states: &mut [u32]) -> Result<bool, AllocError> {
    match Kind::from(list.word()) {
        Kind::Load => list.load(states),
        Kind::Poke => list.poke(states),
        Kind::Layer => return layer(alloc, list, states),
    }
    Ok(false)
}

// The list begins with how many calls and answers it has, and ends with the last call.
fn run(alloc: Global, list: &[u8]) -> Result<Score, AllocError> {
    let mut reader = Reader::new(list);
    let calls = reader.size().min(list.len());
    let mut score = Score {
        of: u64::from(reader.word()),
        ..Score::default()
    };
    let mut states = vec![in alloc; 0; MOST_WORDS]?;
    for _ in 0..calls {
        score.count(call(alloc, &mut reader, &mut states)?);
    }
    score.whole = reader.at / 4 == list.len() / 4;
    Ok(score)
}

fn run_layer<R: Files + AllocGlobal>(rt: &R) -> Result<Score, AllocError> {
    match listed_calls::list_in(rt, "layer") {
        Some(list) => run(rt.alloc(), &list),
        None => Ok(Score::default()),
    }
}

fn main(rt: HostRuntime) -> io::Result<()> {
    let score = run_layer(&rt)?;
    if score.whole {
        println!(rt; "layer: {score}")
    } else {
        println!(rt; "layer: {score}, the list is missing, cut or too long")
    }
}
