// Where a packet header ends, at the start of the byte after its last bit (bio.rs), and how many of its bits lie past the input's end.
#![tactic(auto)]

ghost use Rattle.std.specs.Prelude.{◌≡◌, ◌+◌, ◌≤◌, length};
ghost use Rattle.t800.specs.Bits.{reach, bio_at, bits_past};
ghost use Rattle.bits_taken.specs.Taken.{Reached, stuffed_past};
ghost use Rattle.bio_read_end.specs.HeaderEnd.{aligned_at};

use t800::Bio;

// Whether the header ends within the input, and where.
#[derive(Clone, Copy)]
pub struct Aligned {
    pub ok: bool,
    pub bio: Bio,
}

pub fn opj_bio_inalign(src: &[u8], b: Bio) -> Aligned
    requires { b.bp ≤ length src.now + reach }
    ensures { result ≡ aligned_at src.now b }
{
    let bp = b.bp;
    let n = src.len();
    if (b.buf & 0xff) == 0xff {
        let next = bio_read::opj_bio_init_dec(bp + 1);
        return Aligned {
            ok: bp != n,
            bio: next,
        };
    }
    let bio = bio_read::opj_bio_init_dec(bp.min(n));
    Aligned { ok: true, bio }
}

// 1 where the first byte past the end follows an FF of a header that begins at `start`.
fn stuffed_past(src: &[u8], start: usize) -> u64
    ensures { result ≡ stuffed_past src.now start }
{
    let n = src.len();
    if n <= start {
        return 0;
    }
    if src[n - 1] == 0xff {
        return 1;
    }
    0
}

// Of the bits from `start` up to b: eight a byte past the end, less the stuffed one and those that are still held.
pub fn bits_past(src: &[u8], start: usize, b: Bio) -> u64
    requires { Reached src.now start b }
    ensures { result ≡ bits_past src.now (bio_at start) b }
{
    let n = src.len();
    if b.bp <= n {
        return 0;
    }
    let bytes = (b.bp - n) as u64;
    let not_read = stuffed_past(src, start) + u64::from(b.ct);
    bytes * 8 - not_read
}
