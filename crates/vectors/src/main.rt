// Runs lists of packet calls and compares every answer. Its arguments name the lists, files of data/ that tools/make_vectors.py wrote: most
// answers are those of crate openjp2 0.6.1's own code; those of refusals that the crate has not, of layers from 999 on, and of packets
// written without passes are by the scope (docs/SCOPE.md) alone.
#![tactic(auto)]

use listed_calls::{OUTPUT, RECORDS, REPORTS, Reader, SCRATCH, Score};
use std::alloc::{AllocError, Global};
use std::rt::{Env, Files};
use std::{env, io};
use t800::{Band, Markers};

const STATE: u32 = 7;

const MOST_STATE: usize = 147463;

const MOST_WORDS: usize = 49152;

const MOST_BYTES: usize = 4000;

// None of a list's words is larger.
fn word_of(n: u64) -> u32 {
    u32::try_from(n).unwrap_or(0)
}

// How many words or bytes of the room.
fn size(list: &mut Reader<'_>, most: usize) -> usize {
    list.number().min(most as u64) as usize
}

// A number of a row, and how often it comes again.
#[derive(Clone, Copy, Default)]
struct Row {
    value: u64,
    left: u64,
}

impl Row {
    // A byte 251 says that how often and what follow.
    fn next(&mut self, list: &mut Reader<'_>) -> u64 {
        if 0 < self.left {
            self.left -= 1;
            return self.value;
        }
        let mut times = 1;
        if list.list.get(list.at) == Some(&251) {
            list.byte();
            times = list.number();
        }
        self.value = list.number();
        self.left = times.saturating_sub(1);
        self.value
    }
}

// How many, and the row.
fn row_in(alloc: Global, list: &mut Reader<'_>, most: usize) -> Result<Vec<u32>, AllocError> {
    let mut words = vec![in alloc; 0; size(list, most)]?;
    let mut row = Row::default();
    for word in words.iter_mut() {
        *word = word_of(row.next(list));
    }
    Ok(words)
}

// How many, and the bytes.
fn bytes<'a>(list: &mut Reader<'a>) -> &'a [u8] {
    let n = list.number();
    list.bytes(n as usize)
}

// ---- what is expected

// All are read.
fn has_numbers(list: &mut Reader<'_>, answers: &[u64]) -> bool {
    let mut same = true;
    for &answer in answers {
        same &= list.number() == answer;
    }
    same
}

// So many words of a row, and from there on one word over and over.
fn has_row(list: &mut Reader<'_>, words: &[u32]) -> bool {
    let listed = word_of(list.number()) as usize;
    let rest = list.number();
    let mut row = Row::default();
    let mut same = listed <= words.len();
    for (i, &word) in words.iter().enumerate() {
        let wanted = if i < listed { row.next(list) } else { rest };
        same &= wanted == u64::from(word);
    }
    same
}

// So many listed bytes, so many of a body, and from there on one byte over and over.
fn has_output(list: &mut Reader<'_>, output: &[u8]) -> bool {
    let front = word_of(list.number());
    let body = word_of(list.number()) as usize;
    let rest = list.number();
    // the largest word stands for no bytes of the list
    let listed = list.bytes(if front < u32::MAX { front as usize } else { 0 });
    let front = front as usize;
    let wanted = |i: usize| {
        if i < front {
            return u64::from(listed.get(i).copied().unwrap_or(0));
        }
        if i - front < body {
            return u64::from(listed_calls::body_byte(i - front));
        }
        rest
    };
    front <= output.len()
        && output
            .iter()
            .enumerate()
            .all(|(i, &byte)| u64::from(byte) == wanted(i))
}

// The start of each segment, as a struct has it that is stored from the records' numbers.
fn has_starts(list: &mut Reader<'_>, records: &[u32], segments: usize) -> bool {
    let mut same = true;
    let mut last = t2_records::no_segment();
    for i in 0..segments {
        last = t2_records::segment_after(records, i, last);
        same &= list.number() == last.start;
    }
    same
}

// ---- calls

enum Kind {
    Load,
    Start,
    Measure,
    Write,
    Read,
    Poke,
}

impl From<u64> for Kind {
    fn from(n: u64) -> Kind {
        match n {
            0 => Kind::Load,
            1 => Kind::Start,
            2 => Kind::Measure,
            4 => Kind::Read,
            5 => Kind::Poke,
            _ => Kind::Write,
        }
    }
}

fn band(list: &mut Reader<'_>, row: &mut Row) -> Band {
    Band {
        across: word_of(row.next(list)),
        down: word_of(row.next(list)),
        planes: word_of(row.next(list)),
    }
}

fn start(alloc: Global, list: &mut Reader<'_>, state: &mut Vec<u32>) -> Result<bool, AllocError> {
    let role = list.number();
    let count = word_of(list.number());
    let mut nine = Row::default();
    let bands = [
        band(list, &mut nine),
        band(list, &mut nine),
        band(list, &mut nine),
    ];
    let style = u8::try_from(list.number()).unwrap_or(0);
    *state = vec![in alloc; STATE; size(list, MOST_STATE)]?;
    let planes = row_in(alloc, list, MOST_WORDS)?;
    let answer = if role == 1 {
        t2::start_writer(count, bands, style, &planes, state)
    } else {
        t2::start_reader(count, bands, style, &planes, state)
    };
    Ok(has_numbers(list, &[u64::from(answer), listed_calls::checksum(state)]))
}

// What measuring and writing are asked.
#[derive(Drop)]
struct Asked<'a> {
    scratch: Vec<u32>,
    markers: Markers,
    packet: u32,
    counts: Vec<u32>,
    lengths: Vec<u32>,
    marks: &'a [u8],
}

fn asked_in<'a>(alloc: Global, list: &mut Reader<'a>) -> Result<Asked<'a>, AllocError> {
    Ok(Asked {
        scratch: vec![in alloc; SCRATCH; size(list, MOST_STATE)]?,
        markers: listed_calls::markers_of(list.number()),
        packet: word_of(list.number()),
        counts: row_in(alloc, list, MOST_WORDS)?,
        lengths: row_in(alloc, list, MOST_WORDS)?,
        marks: bytes(list),
    })
}

fn measure(alloc: Global, list: &mut Reader<'_>, state: &[u32]) -> Result<bool, AllocError> {
    let Asked {
        mut scratch,
        markers,
        packet: _,
        counts,
        lengths,
        marks,
    } = asked_in(alloc, list)?;
    let r = t2::measure(state, &mut scratch, &counts, &lengths, marks, markers);
    Ok(has_numbers(
        list,
        &[
            u64::from(r.refusal),
            r.header,
            r.body,
            listed_calls::checksum(&scratch),
        ],
    ))
}

fn write(alloc: Global, list: &mut Reader<'_>, state: &mut [u32]) -> Result<bool, AllocError> {
    let Asked {
        mut scratch,
        markers,
        packet,
        counts,
        lengths,
        marks,
    } = asked_in(alloc, list)?;
    let body = listed_calls::body_of(alloc, size(list, MOST_BYTES))?;
    let mut output = vec![in alloc; OUTPUT; size(list, MOST_BYTES)]?;
    let r = t2::write(
        state,
        &mut scratch,
        &counts,
        &lengths,
        marks,
        &body,
        markers,
        packet,
        &mut output,
    );
    let answer = has_numbers(list, &[u64::from(r.refusal), r.bytes]);
    let written = has_output(list, &output);
    let left = has_numbers(
        list,
        &[
            listed_calls::checksum(state),
            listed_calls::checksum(&scratch),
        ],
    );
    Ok(answer && written && left)
}

fn read(alloc: Global, list: &mut Reader<'_>, state: &mut [u32]) -> Result<bool, AllocError> {
    let mut scratch = vec![in alloc; SCRATCH; size(list, MOST_STATE)]?;
    let markers = listed_calls::markers_of(list.number());
    let input = bytes(list);
    let mut reports = vec![in alloc; REPORTS; size(list, MOST_WORDS)]?;
    let mut records = vec![in alloc; RECORDS; size(list, MOST_WORDS)]?;
    let r = t2::read(
        state,
        &mut scratch,
        input,
        markers,
        &mut reports,
        &mut records,
    );
    let answer = has_numbers(
        list,
        &[
            u64::from(r.refusal),
            u64::from(r.present),
            r.taken,
            r.segments,
            u64::from(r.sop),
            u64::from(r.eph),
            r.past,
        ],
    );
    let told = has_row(list, &reports);
    let stored = has_row(list, &records);
    let starts = has_starts(list, &records, word_of(r.segments) as usize);
    let left = has_numbers(
        list,
        &[
            listed_calls::checksum(state),
            listed_calls::checksum(&scratch),
        ],
    );
    Ok(answer && told && stored && starts && left)
}

fn poke(list: &mut Reader<'_>, state: &mut [u32]) {
    let place = word_of(list.number()) as usize;
    let word = word_of(list.number());
    if let Some(old) = state.get_mut(place) {
        *old = word;
    }
}

// Whether the call had an answer, as listed.
fn call(alloc: Global, list: &mut Reader<'_>, state: &mut Vec<u32>) -> Result<bool, AllocError> {
    match Kind::from(list.number()) {
        Kind::Load => *state = row_in(alloc, list, MOST_STATE)?,
        Kind::Poke => poke(list, state),
        Kind::Start => return start(alloc, list, state),
        Kind::Measure => return measure(alloc, list, state),
        Kind::Write => return write(alloc, list, state),
        Kind::Read => return read(alloc, list, state),
    }
    Ok(false)
}

// A list begins with its calls and its answers, and goes on with the calls, of a byte each or more. It must end where the last one does.
fn run(alloc: Global, list: &[u8]) -> Result<Score, AllocError> {
    let mut reader = Reader::new(list);
    let calls = size(&mut reader, list.len());
    let mut score = Score {
        of: reader.number(),
        ..Score::default()
    };
    let mut state = Vec::new(alloc);
    for _ in 0..calls {
        score.count(call(alloc, &mut reader, &mut state)?);
    }
    score.whole = reader.at == list.len();
    Ok(score)
}

fn print(rt: &impl Print, name: &str, score: Score) -> io::Result<()> {
    if score.whole {
        println!(rt; "{name}: {score}")
    } else {
        println!(rt; "{name}: {score}, a list is missing, cut or too long")
    }
}

fn score_of<R: Files + AllocGlobal>(rt: &R, file: &str) -> Result<Score, AllocError> {
    match listed_calls::list_in(rt, file) {
        Some(list) => run(rt.alloc(), &list),
        None => Ok(Score::default()),
    }
}

// A line for each list that an argument names; the sum of their scores.
fn run_all<R: Env + Files + AllocGlobal + Print>(rt: &R) -> io::Result<Score> {
    let mut all = Score {
        whole: true,
        ..Score::default()
    };
    for name in env::args(rt)?.skip(1) {
        let score = score_of(rt, name.as_str())?;
        print(rt, name.as_str(), score)?;
        all = all.sum(score);
    }
    Ok(all)
}

fn main(rt: HostRuntime) -> io::Result<()> {
    let all = run_all(&rt)?;
    print(&rt, "all", all)
}
