// Style bits and marker bytes of types.rs, the segment rule of tcd.rs, and the numbers of a state.
#![tactic(auto)]

ghost use Rattle.std.specs.Prelude.{◌≡◌, ◌+◌, ◌-◌, ◌%◌, ◌^◌};
ghost use Rattle.t800.specs.Segments.{term_all, bypass, first_limit, next_limit};
ghost use Rattle.t800.specs.Ranges.{bad_style};

// ---- style bits and marker bytes

// A code-block style (T.800, Table A.19).
#[derive(Clone, Copy)]
pub struct Style {
    pub bits: u32,
}

impl Style {
    pub const LAZY: u32 = 0x01;

    pub const RESET: u32 = 0x02;

    pub const TERMALL: u32 = 0x04;

    pub const VSC: u32 = 0x08;

    pub const PTERM: u32 = 0x10;

    pub const SEGSYM: u32 = 0x20;

    pub const HT: u32 = 0x40;

    pub const HTMIXED: u32 = 0x80;

    // High-throughput bits, and in a state's word whatever lies above them.
    #[tactic(auto, unfolding(t800::specs::Ranges::bad_style))]
    pub fn is_refused(self) -> bool
        ensures { result ≡ bad_style self.bits }
    {
        Style::HT <= self.bits
    }

    fn terminates_all(self) -> bool
        ensures { result ≡ term_all self.bits }
    {
        self.bits & Style::TERMALL != 0
    }

    fn bypasses(self) -> bool
        ensures { result ≡ bypass self.bits }
    {
        self.bits & Style::LAZY != 0
    }

    // The passes that a block's first segment can hold.
    #[tactic(auto, unfolding(t800::specs::Segments::first_limit))]
    pub fn first_limit(self) -> u32
        ensures { result ≡ first_limit self.bits }
    {
        if self.terminates_all() {
            return 1;
        }
        if self.bypasses() { 10 } else { 109 }
    }

    // The passes that a segment can hold after one with this limit.
    #[tactic(auto, unfolding(t800::specs::Segments::next_limit))]
    pub fn next_limit(self, limit: u32) -> u32
        ensures { result ≡ next_limit self.bits limit }
    {
        if self.terminates_all() {
            return 1;
        }
        if self.bypasses() {
            return if limit == 2 { 1 } else { 2 };
        }
        109
    }
}

// A marker in a packet (T.800, A.8): the byte after its first, and its bytes with all that belongs to it.
#[derive(Clone, Copy)]
pub struct Marker {
    pub second: u8,
    pub bytes: usize,
}

impl Marker {
    pub const FIRST: u8 = 0xff;

    pub const SOP: Marker = Marker {
        second: 0x91,
        bytes: 6,
    };

    // The number in SOP's length field.
    pub const LSOP: u8 = 4;

    pub const EPH: Marker = Marker {
        second: 0x92,
        bytes: 2,
    };
}

// ---- a state's numbers

// The roles.
pub const WRITER: u32 = 1;

pub const READER: u32 = 2;

// "Not yet" in the inclusion tree, and so the number of layers; and in the zero-plane tree.
pub const NOT_YET_INCLUDED: u32 = 65535;

pub const NOT_YET_PLANES: u32 = 999;

// A block's planes as read; more zero planes than the band has go round.
pub fn block_planes(band: u32, zero: u32) -> u32
    ensures { result ≡ (band + 2 ^ 32 - zero) % 2 ^ 32 }
{
    band.wrapping_sub(zero)
}
