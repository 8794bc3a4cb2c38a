// Bits of a packet header out of bytes, high bit first, without the 0 that is stuffed after a byte FF (bio.rs).
#![tactic(auto)]

ghost use Rattle.std.specs.Prelude.{◌≡◌, ◌+◌, ◌≤◌, max, min, length};
ghost use Rattle.t800.specs.Bits.{reach, bio_at, byte_in, get_bit, read_bit, read_bits};
ghost use Rattle.bio_read.specs.Chunks.{refill, held_bits};
ghost use Rattle.bio_read.specs.Reading.{decoded, bit_read};

use t800::{Bio, REACH};

// A number that was read, and where reading goes on.
#[derive(Clone, Copy)]
pub struct Decoded {
    pub value: u32,
    pub bio: Bio,
}

// A bit, and whether it lay past the input's end.
#[derive(Clone, Copy)]
pub struct Bit {
    pub value: u32,
    pub past: bool,
}

#[derive(Clone, Copy)]
pub struct BitRead {
    pub bit: Bit,
    pub bio: Bio,
}

pub fn opj_bio_init_dec(at: usize) -> Bio
    ensures { result ≡ bio_at at }
{
    Bio {
        bp: at,
        buf: 0,
        ct: 0,
    }
}

// The place after one that lies past the input's end.
fn place_past(src: &[u8], bp: usize) -> usize
    requires { length src.now ≤ bp }
    ensures { result ≡ max bp (min (bp + 1) (length src.now + reach)) }
{
    let beyond = bp - src.len();
    if beyond < REACH {
        return bp + 1;
    }
    bp
}

pub fn opj_bio_bytein(src: &[u8], b: Bio) -> Bio
    ensures { result ≡ byte_in src.now b }
{
    let bp = b.bp;
    let buf = (b.buf << 8) & 0xffff;
    let ct = bio_bytes::bits_after(buf);
    if bp < src.len() {
        return Bio {
            bp: bp + 1,
            buf: buf | u32::from(src[bp]),
            ct,
        };
    }
    Bio {
        bp: place_past(src, bp),
        buf,
        ct,
    }
}

fn refill(src: &[u8], b: Bio) -> Bio
    ensures { result ≡ refill src.now b }
{
    if b.ct == 0 {
        return opj_bio_bytein(src, b);
    }
    b
}

fn held_bits(b: Bio, k: u32) -> Decoded
    requires { (k ≤ b.ct) × (b.ct ≤ 8) }
    ensures { decoded result ≡ held_bits b k }
{
    let ct = b.ct - k;
    Decoded {
        value: (b.buf >> ct) & bio_bytes::low_ones(k),
        bio: Bio {
            bp: b.bp,
            buf: b.buf,
            ct,
        },
    }
}

fn one_bit(src: &[u8], b: Bio) -> Decoded
    requires { b.ct ≤ 8 }
    ensures { decoded result ≡ get_bit src.now b }
{
    let m = refill(src, b);
    held_bits(m, 1)
}

pub fn opj_bio_getbit(src: &[u8], b: Bio) -> BitRead
    requires { b.ct ≤ 8 }
    ensures { bit_read result ≡ read_bit src.now b }
{
    let m = refill(src, b);
    let ct = m.ct - 1;
    let bit = Bit {
        value: (m.buf >> ct) & 1,
        past: src.len() < m.bp,
    };
    let bio = Bio {
        bp: m.bp,
        buf: m.buf,
        ct,
    };
    BitRead { bit, bio }
}

// As many bits at a time as the held byte has left.
fn read_chunks(src: &[u8], b: Bio, n: u32) -> Decoded
    requires { (b.ct ≤ 8) × (n ≤ 32) }
    ensures { decoded result ≡ read_bits src.now n b }
{
    let mut bio = b;
    let mut value = 0;
    let mut left = n;
    while 0 < left {
        let m = refill(src, bio);
        let k = math::opj_uint_min(left, m.ct);
        let r = held_bits(m, k);
        bio = r.bio;
        value = (value << k) | r.value;
        left -= k;
    }
    Decoded { value, bio }
}

// Most numbers have one bit, or lie within the held byte.
pub fn opj_bio_read(src: &[u8], b: Bio, n: u32) -> Decoded
    requires { (b.ct ≤ 8) × (n ≤ 32) }
    ensures { decoded result ≡ read_bits src.now n b }
{
    if n == 1 {
        return one_bit(src, b);
    }
    if n <= b.ct {
        return held_bits(b, n);
    }
    read_chunks(src, b, n)
}
