// The definitions of docs/SCOPE.md stand in specs/; here are the plain structs that definitions and code both speak of.
#![tactic(auto)]

ghost use Rattle.std.specs.Prelude.{◌≡◌};
ghost use Rattle.t800.specs.RefusalNumbers.{number_of, word_of};
ghost use Rattle.t800.specs.Packet.{refused_answer};

// Where the bits of a header stand: the next byte's place, the held word, and how many of its low bits are still to be read or free.
#[derive(Clone, Copy)]
pub struct Bio {
    pub bp: usize,
    pub buf: u32,
    pub ct: u32,
}

// How far past the input's end a place goes on.
pub const REACH: usize = 0x100_0000_0000;

// One level of a tag tree: nodes across and down.
#[derive(Clone, Copy)]
pub struct Level {
    pub w: u32,
    pub h: u32,
}

// One band of the precinct: code-blocks across and down, and bit-planes.
#[derive(Clone, Copy)]
pub struct Band {
    pub across: u32,
    pub down: u32,
    pub planes: u32,
}

// Whether SOP and EPH are used.
#[derive(Clone, Copy)]
pub struct Markers {
    pub sop: bool,
    pub eph: bool,
}

// The answers. `refusal` is a number of SCOPE S4, or 0; all else is 0 where it isn't.
#[derive(Clone, Copy)]
pub struct MeasureAnswer {
    pub refusal: u32,
    pub header: u64,
    pub body: u64,
}

impl MeasureAnswer {
    pub fn refused(why: Refusal) -> MeasureAnswer
        ensures { result ≡ record { refusal = number_of why; header = 0; body = 0 } }
    {
        MeasureAnswer {
            refusal: u32::from(why),
            header: 0,
            body: 0,
        }
    }
}

#[derive(Clone, Copy)]
pub struct WriteAnswer {
    pub refusal: u32,
    pub bytes: u64,
}

impl WriteAnswer {
    pub fn refused(why: Refusal) -> WriteAnswer
        ensures { result ≡ record { refusal = number_of why; bytes = 0 } }
    {
        let refusal = u32::from(why);
        WriteAnswer { refusal, bytes: 0 }
    }
}

// `place` is that of the precinct refused, and 0 with a success.
#[derive(Clone, Copy)]
pub struct LayerAnswer {
    pub refusal: u32,
    pub place: u64,
    pub bytes: u64,
}

impl LayerAnswer {
    pub fn refused(why: Refusal, place: usize) -> LayerAnswer
        ensures { result ≡ record { refusal = number_of why; place = place; bytes = 0 } }
    {
        LayerAnswer {
            refusal: u32::from(why),
            place: place as u64,
            bytes: 0,
        }
    }
}

#[derive(Clone, Copy)]
pub struct ReadAnswer {
    pub refusal: u32,
    pub present: u32,
    pub taken: u64,
    pub segments: u64,
    pub sop: u32,
    pub eph: u32,
    pub past: u64,
}

impl ReadAnswer {
    pub fn refused(why: Refusal) -> ReadAnswer
        ensures { result ≡ refused_answer (number_of why) }
    {
        ReadAnswer {
            refusal: u32::from(why),
            present: 0,
            taken: 0,
            segments: 0,
            sop: 0,
            eph: 0,
            past: 0,
        }
    }
}

// `headers` counts bytes of the gathered headers, `taken` those of the input beside them.
#[derive(Clone, Copy)]
pub struct ReadGatheredAnswer {
    pub refusal: u32,
    pub present: u32,
    pub headers: u64,
    pub taken: u64,
    pub segments: u64,
    pub sop: u32,
    pub eph: u32,
    pub past: u64,
}

#[derive(Clone, Copy)]
pub struct GatherAnswer {
    pub refusal: u32,
    pub headers: u64,
    pub bodies: u64,
}

impl GatherAnswer {
    pub fn refused(why: Refusal) -> GatherAnswer
        ensures { result ≡ record { refusal = number_of why; headers = 0; bodies = 0 } }
    {
        GatherAnswer {
            refusal: u32::from(why),
            headers: 0,
            bodies: 0,
        }
    }
}

// A segment's record: block number; 1 if it opens a segment, else 0; passes; length; how many of the packet's body bytes lie before it.
#[repr(C)]
#[derive(Clone, Copy)]
pub struct SegmentRecord {
    pub block: u32,
    pub opens: u32,
    pub passes: u32,
    pub bytes: u32,
    pub start: u64,
}

// The refusals of SCOPE S4, in the order of their numbers.
#[derive(Clone, Copy, Debug, PartialEq, Eq)]
pub enum Refusal {
    Shape,
    Style,
    List,
    Planes,
    State,
    Layers,
    Passes,
    Length,
    Width,
    Body,
    Space,
    HeaderEnd,
    Records,
    Precincts,
    Segments,
    Packed,
}

impl From<Refusal> for u32 {
    ghost from_gives = { λ why n. n ≡ number_of why };

    fn from(why: Refusal) -> u32 {
        match why {
            Refusal::Shape => 1,
            Refusal::Style => 2,
            Refusal::List => 3,
            Refusal::Planes => 4,
            Refusal::State => 5,
            Refusal::Layers => 6,
            Refusal::Passes => 7,
            Refusal::Length => 8,
            Refusal::Width => 9,
            Refusal::Body => 10,
            Refusal::Space => 11,
            Refusal::HeaderEnd => 12,
            Refusal::Records => 13,
            Refusal::Precincts => 14,
            Refusal::Segments => 15,
            Refusal::Packed => 16,
        }
    }
}

// A call's answer word: 0 where nothing is refused.
pub fn answer_word(why: Option<Refusal>) -> u32
    ensures { result ≡ word_of why }
{
    match why {
        Some(r) => u32::from(r),
        None => 0,
    }
}

// The words of a block's report, and of a segment's record in a list of words.
pub const REPORT_WIDTH: usize = 4;

pub const RECORD_WIDTH: usize = 4;
