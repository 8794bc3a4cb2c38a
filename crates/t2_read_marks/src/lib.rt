// The markers of a packet that is read (t2.rs), and the answer where nothing is refused.
#![tactic(auto)]

ghost use Rattle.std.specs.Prelude.{◌≡◌, ◌-◌, ◌≤◌, length};
ghost use Rattle.t800.specs.MarkerSegments.{read_marker};
ghost use Rattle.bits_taken.specs.Taken.{Reached};
ghost use Rattle.t2_read_marks.specs.Marks.{mark_number, marker_read, done_answer};

use t800::{Bio, Markers, ReadAnswer};
use tcd_style::Marker;

// In order or not used, too few bytes, or not found.
#[derive(Clone, Copy)]
pub enum Mark {
    InOrder,
    TooFew,
    NotFound,
}

impl From<Mark> for u32 {
    ghost from_gives = { λ mark n. n ≡ mark_number mark };

    fn from(mark: Mark) -> u32 {
        match mark {
            Mark::InOrder => 0,
            Mark::TooFew => 1,
            Mark::NotFound => 2,
        }
    }
}

// Bytes to skip, and the mark.
#[derive(Clone, Copy)]
pub struct MarkerFound {
    pub skip: usize,
    pub mark: Mark,
}

// At place p.
pub fn read_marker(used: bool, m: Marker, src: &[u8], p: usize) -> MarkerFound
    requires { 2 ≤ m.bytes }
    ensures { marker_read result ≡ read_marker used m.bytes m.second src.now p }
{
    if !used {
        return MarkerFound {
            skip: 0,
            mark: Mark::InOrder,
        };
    }
    if src.len().saturating_sub(p) < m.bytes {
        return MarkerFound {
            skip: 0,
            mark: Mark::TooFew,
        };
    }
    if src[p] != Marker::FIRST {
        return MarkerFound {
            skip: 0,
            mark: Mark::NotFound,
        };
    }
    if src[p + 1] != m.second {
        return MarkerFound {
            skip: 0,
            mark: Mark::NotFound,
        };
    }
    MarkerFound {
        skip: m.bytes,
        mark: Mark::InOrder,
    }
}

// The header's bits end at b.
pub fn done(
    src: &[u8],
    m: Markers,
    s: MarkerFound,
    b: Bio,
    present: u32,
    segments: usize,
) -> ReadAnswer
    requires { Reached src.now s.skip b }
    ensures { result ≡ done_answer m src.now (marker_read s) b present segments }
{
    let end = bio_read_end::opj_bio_inalign(src, b);
    let after = end.bio;
    let at = after.bp;
    let e = read_marker(m.eph, Marker::EPH, src, at);
    let taken = at + e.skip;
    let past = bio_read_end::bits_past(src, s.skip, b);
    ReadAnswer {
        refusal: 0,
        present,
        taken: taken as u64,
        segments: segments as u64,
        sop: u32::from(s.mark),
        eph: u32::from(e.mark),
        past,
    }
}
