// A packet header after its first bit, read for what it does to the state, where it ends, and how many body bytes it tells of.
#![tactic(auto)]

ghost use Rattle.std.specs.Prelude.{◌≡◌, true, ◌<◌, length};
ghost use Rattle.t800.specs.State.{reader, layer, not_yet_included};
ghost use Rattle.t800.specs.Ranges.{valid_state};
ghost use Rattle.t2_read_segments.specs.Reading.{BitsIn};
ghost use Rattle.t2_skip_header.specs.Skipping.{SkipsHeader};

use t800::Bio;

// Room for every record that a packet can have: 164 a block, 12,288 blocks.
pub const ROOM_FOR_ALL: usize = 2_015_232;

#[derive(Clone, Copy)]
pub struct Skipped {
    pub bio: Bio,
    pub bytes: u64,
    pub refusal: u32,
}

// Of the state in `words`. Reports and records go into lists without room.
pub fn opj_t2_skip_packet_header(words: &mut [u32], src: &[u8], b: Bio) -> Skipped
    requires { (valid_state reader words.old (length words.old) ≡ true) × (layer words.old < not_yet_included)
        × (BitsIn src.now b) }
    ensures { SkipsHeader src.now words.old b words.new result }
{
    let mut reports = [0u32; 0];
    let mut records = [0u32; 0];
    let run = t2_read_header::read_header(words, &mut reports, &mut records, src, b, ROOM_FOR_ALL);
    let bio = run.bio;
    Skipped {
        bio,
        bytes: run.bytes,
        refusal: run.refusal,
    }
}
