// Bits of a packet header into bytes, high bit first, with a stuffed 0 after a byte FF (bio.rs).
#![tactic(auto)]

ghost use Rattle.std.specs.Prelude.{◌≡◌, ◌≤◌};
ghost use Rattle.t800.specs.Bits.{bits_of};
ghost use Rattle.bio_bytes.specs.Writing.{output, make_room, put_bit, put_bits, flush, FreeBitsClear};
ghost use Rattle.bio_write.specs.Chunks.{hold_bits};

use t800::Bio;

fn make_room(out: &mut [u8], b: Bio) -> Bio
    ensures { output out.new result ≡ make_room (output out.old b) }
{
    if b.ct == 0 {
        return bio_bytes::opj_bio_byteout(out, b);
    }
    b
}

fn hold_bits(b: Bio, v: u32, k: u32) -> Bio
    requires { (FreeBitsClear b) × (k ≤ b.ct) }
    ensures { result ≡ hold_bits b v k }
{
    let ct = b.ct - k;
    let bits = v & bio_bytes::low_ones(k);
    Bio {
        bp: b.bp,
        buf: b.buf | (bits << ct),
        ct,
    }
}

pub fn opj_bio_putbit(out: &mut [u8], b: Bio, bit: u32) -> Bio
    requires { (FreeBitsClear b) × (bit ≤ 1) }
    ensures { output out.new result ≡ put_bit (output out.old b) bit }
{
    let m = make_room(out, b);
    hold_bits(m, bit, 1)
}

// As many bits at a time as the held byte has room for.
fn write_chunks(out: &mut [u8], b: Bio, v: u32, n: u32) -> Bio
    requires { (FreeBitsClear b) × (n ≤ 32) }
    ensures { output out.new result ≡ put_bits (output out.old b) (bits_of n v) }
{
    let mut bio = b;
    let mut left = n;
    while 0 < left {
        let m = make_room(out, bio);
        let k = math::opj_uint_min(left, m.ct);
        left -= k;
        bio = hold_bits(m, v >> left, k);
    }
    bio
}

// Most numbers have one bit, or fit the held byte.
pub fn opj_bio_write(out: &mut [u8], b: Bio, v: u32, n: u32) -> Bio
    requires { (FreeBitsClear b) × (n ≤ 32) }
    ensures { output out.new result ≡ put_bits (output out.old b) (bits_of n v) }
{
    if n == 1 {
        return opj_bio_putbit(out, b, v & 1);
    }
    if n <= b.ct {
        return hold_bits(b, v, n);
    }
    write_chunks(out, b, v, n)
}

pub fn opj_bio_flush(out: &mut [u8], b: Bio) -> Bio
    ensures { output out.new result ≡ flush (output out.old b) }
{
    let m = bio_bytes::opj_bio_byteout(out, b);
    if m.ct == 7 {
        return bio_bytes::opj_bio_byteout(out, m);
    }
    m
}
