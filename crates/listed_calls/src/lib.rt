// What the programs share that replay a list of calls: reading the list, what fills the lists that are lent, checksums and the score.
#![tactic(auto)]

ghost use Rattle.std.specs.Prelude.{◌≡◌, ℕ, ◌+◌, ◌*◌, ◌/◌, ◌%◌, ◌<◌, ◌≤◌, ◌↔◌, ◌-◌, min, if◌then◌else◌, IfOk, IfSome, IsTrue, length, slice_index, slice_index_or, slice_range, slice_set, vec_len};
ghost use Rattle.listed_calls.specs.Scores.{plus};
ghost use Rattle.listed_calls.specs.Words.{word_at};

use std::alloc::{AllocError, Global};
use std::rt::Files;
use std::{fmt, fs};
use t800::Markers;

// What fills a list before it is lent.
pub const SCRATCH: u32 = 5;

pub const RECORDS: u32 = 8;

pub const REPORTS: u32 = 9;

pub const OUTPUT: u8 = 165;

// A list has fewer bytes, and a list of words no more words.
const MOST_BYTES: usize = 65536;

pub const MOST_WORDS: usize = 16384;

// The file's bytes; a file that is missing or too long is no list.
pub fn list_in<R: Files + AllocGlobal>(rt: &R, file: &str) -> Option<Vec<u8>>
    ensures { IfSome result (λ list. vec_len list < MOST_BYTES) }
{
    let list = fs::read(rt, file).ok()?;
    if list.len() < MOST_BYTES {
        Some(list)
    } else {
        None
    }
}

// A list, read from a place on; zeros stand beyond its end.
#[derive(Clone, Copy)]
pub struct Reader<'a> {
    pub list: &'a [u8],
    pub at: usize,
}

impl<'a> Reader<'a> {
    pub fn new(list: &'a [u8]) -> Reader<'a>
        ensures list { result.list.now ≡ list.now }
        ensures at { result.at ≡ 0 }
    {
        Reader { list, at: 0 }
    }

    pub fn byte(&mut self) -> u8
        ensures value { result ≡ slice_index_or self.old.list.now self.old.at 0 }
        ensures list { self.new.list.now ≡ self.old.list.now }
        ensures at { self.old.at < usize.MAX → self.new.at ≡ self.old.at + 1 }
    {
        let byte = self.list.get(self.at).copied().unwrap_or(0);
        self.at = self.at.saturating_add(1);
        byte
    }

    // Four bytes, the highest first.
    pub fn word(&mut self) -> u32
        ensures value { self.old.at + 4 ≤ usize.MAX → result ≡ word_at self.old.list.now self.old.at }
        ensures list { self.new.list.now ≡ self.old.list.now }
        ensures at { self.old.at + 4 ≤ usize.MAX → self.new.at ≡ self.old.at + 4 }
    {
        u32::from_be_bytes([self.byte(), self.byte(), self.byte(), self.byte()])
    }

    // A word that says how many.
    pub fn size(&mut self) -> usize
        ensures value { self.old.at + 4 ≤ usize.MAX → result ≡ word_at self.old.list.now self.old.at }
        ensures list { self.new.list.now ≡ self.old.list.now }
        ensures at { self.old.at + 4 ≤ usize.MAX → self.new.at ≡ self.old.at + 4 }
    {
        self.word() as usize
    }

    // A byte below 252; else 252, 253, 254 or 255, and then 1, 2, 4 or 8 bytes, the highest first.
    pub fn number(&mut self) -> u64
        ensures small { slice_index_or self.old.list.now self.old.at 0 < 252 → result ≡ slice_index_or self.old.list.now self.old.at 0 }
        ensures list { self.new.list.now ≡ self.old.list.now }
    {
        let width = match self.byte() {
            252 => 1,
            253 => 2,
            254 => 4,
            255 => 8,
            small => return u64::from(small),
        };
        let mut value = 0;
        for _ in 0..width {
            value = (value << 8) | u64::from(self.byte());
        }
        value
    }

    // As many bytes, or all that are left.
    pub fn bytes(&mut self, n: usize) -> &'a [u8]
        ensures most { length result.now ≤ n }
        ensures all { self.old.at + n ≤ length self.old.list.now → result.now ≡ slice_range self.old.list.now self.old.at (self.old.at + n) }
        ensures at { self.old.at + n ≤ usize.MAX → self.new.at ≡ self.old.at + n }
        ensures list { self.new.list.now ≡ self.old.list.now }
    {
        let list = self.list;
        let rest = &list[self.at.min(list.len())..];
        self.at = self.at.saturating_add(n);
        &rest[..n.min(rest.len())]
    }

    // The same of a list of words, and on to the next whole one.
    pub fn padded_bytes(&mut self, n: usize) -> &'a [u8]
        ensures most { length result.now ≤ n }
        ensures list { self.new.list.now ≡ self.old.list.now }
    {
        let bytes = self.bytes(n);
        self.at = self.at.div_ceil(4).saturating_mul(4);
        bytes
    }

    // How many of n words a list of words has room for.
    fn room(&self, n: usize) -> usize
        ensures { result ≡ min n (MOST_WORDS - self.now.at / 4) }
    {
        n.min(MOST_WORDS.saturating_sub(self.at / 4))
    }

    fn fill(&mut self, words: &mut [u32])
        ensures words { self.old.at + 4 * length words.old ≤ usize.MAX → (k : ℕ) → k < length words.old → slice_index words.new k ≡ word_at self.old.list.now (self.old.at + 4 * k) }
        ensures list { self.new.list.now ≡ self.old.list.now }
    {
        for word in words {
            *word = self.word();
        }
    }

    // As many words, or all that there is room for.
    pub fn words(&mut self, alloc: Global, n: usize) -> Result<Vec<u32>, AllocError>
        ensures len { IfOk result (λ words. vec_len words ≡ min n (MOST_WORDS - self.old.at / 4)) }
        ensures words { IfOk result (λ words. self.old.at + 65536 ≤ usize.MAX → (k : ℕ) → k < vec_len words → slice_index words.items k ≡ word_at self.old.list.now (self.old.at + 4 * k)) }
        ensures list { self.new.list.now ≡ self.old.list.now }
    {
        let mut words = vec![in alloc; 0; self.room(n)]?;
        self.fill(&mut words);
        Ok(words)
    }

    // How many, and as many words, the first of the states from here on.
    pub fn load(&mut self, states: &mut [u32])
        ensures states { self.old.at + 65540 ≤ usize.MAX → (k : ℕ) → k < word_at self.old.list.now self.old.at → k < length states.old → k + (self.old.at + 4) / 4 < MOST_WORDS → slice_index states.new k ≡ word_at self.old.list.now (self.old.at + 4 + 4 * k) }
        ensures list { self.new.list.now ≡ self.old.list.now }
    {
        let n = self.size().min(states.len());
        let n = self.room(n);
        self.fill(&mut states[..n]);
    }

    // A place, and the states' word there from here on.
    pub fn poke(&mut self, states: &mut [u32])
        ensures states { self.old.at + 8 ≤ usize.MAX → states.new ≡ slice_set states.old (word_at self.old.list.now self.old.at) (word_at self.old.list.now (self.old.at + 4)) }
        ensures list { self.new.list.now ≡ self.old.list.now }
    {
        let place = self.size();
        let word = self.word();
        if place < states.len() {
            states[place] = word;
        }
    }

    // Whether the next words are these; all of them are read.
    pub fn has_words(&mut self, answers: &[u64]) -> bool
        ensures same { self.old.at + 4 * length answers.now ≤ usize.MAX → (IsTrue result ↔ ((k : ℕ) → k < length answers.now → slice_index answers.now k ≡ word_at self.old.list.now (self.old.at + 4 * k))) }
        ensures list { self.new.list.now ≡ self.old.list.now }
    {
        let mut same = true;
        for &answer in answers {
            same &= u64::from(self.word()) == answer;
        }
        same
    }
}

pub fn markers_of(n: u64) -> Markers
    ensures sop { IsTrue result.sop ↔ (n % 2 ≡ 1) }
    ensures eph { IsTrue result.eph ↔ (n / 2 % 2 ≡ 1) }
{
    Markers {
        sop: n % 2 == 1,
        eph: n / 2 % 2 == 1,
    }
}

// A body's byte at a place.
pub fn body_byte(i: usize) -> u8
    ensures { result ≡ (7 * i + 3) % 256 }
{
    ((7 * (i % 256) + 3) % 256) as u8
}

pub fn body_of(alloc: Global, n: usize) -> Result<Vec<u8>, AllocError>
    ensures len { IfOk result (λ body. vec_len body ≡ n) }
    ensures bytes { IfOk result (λ body. (i : ℕ) → i < n → slice_index body.items i ≡ (7 * i + 3) % 256) }
{
    (0..n).map(body_byte).collect(alloc)
}

const MODULUS: u64 = 4294967291;

// Of the length and every item.
pub fn checksum<T: Copy>(items: &[T]) -> u64
where
    u32: From<T>,
    ensures { result < MODULUS }
{
    let mut sum = items.len() as u64 % MODULUS;
    for &item in items {
        sum = (sum * 65599 + u64::from(u32::from(item)) + 1) % MODULUS;
    }
    sum
}

// How many answers were as listed, of how many, and whether the list was there and whole.
#[derive(Clone, Copy, Default)]
pub struct Score {
    pub good: u64,
    pub of: u64,
    pub whole: bool,
}

impl Score {
    pub fn count(&mut self, good: bool)
        ensures good { self.new.good ≡ (if good then plus self.old.good 1 else self.old.good) }
        ensures of { self.new.of ≡ self.old.of }
        ensures whole { self.new.whole ≡ self.old.whole }
    {
        if good {
            self.good = plus(self.good, 1);
        }
    }

    // Of two lists.
    pub fn sum(self, other: Score) -> Score
        ensures good { result.good ≡ plus self.good other.good }
        ensures of { result.of ≡ plus self.of other.of }
        ensures whole { IsTrue result.whole ↔ (IsTrue self.whole × IsTrue other.whole) }
    {
        Score {
            good: plus(self.good, other.good),
            of: plus(self.of, other.of),
            whole: self.whole && other.whole,
        }
    }
}

const MOST: u64 = 0xffff_ffff;

// A count stops there, and a number beyond it counts for nothing.
fn plus(sum: u64, n: u64) -> u64
    ensures { result ≡ plus sum n }
{
    if sum < MOST && n <= MOST {
        sum + n
    } else {
        sum
    }
}

impl fmt::Display for Score {
    fn fmt<W: fmt::Write>(&self, f: &mut fmt::Formatter<W>) -> fmt::Result {
        let good = self.good;
        let of = self.of;
        write!(f, "{good} of {of}")
    }
}

#[cfg(test)]
mod tests {
    use super::*;
    use std::test::Fail;

    #[test]
    fn lists_are_made(rt: HostRuntime) -> Result<(), Fail> {
        let alloc = rt.alloc();
        let file = list_in(&rt, "/proc/version").expect(&rt, "the file is there");
        assert!(rt; 0 < file.len());
        let list = [0u8, 0, 0, 2, 1, 2, 3, 4, 0, 0, 0, 9];
        let mut reader = Reader::new(&list);
        let n = reader.size();
        let words = reader.words(alloc, n)?;
        assert_eq!(rt; words.as_slice(), [0x0102_0304u32, 9].as_slice());
        let body = body_of(alloc, 3)?;
        assert_eq!(rt; body.as_slice(), [3u8, 10, 17].as_slice());
        Ok(())
    }
}
