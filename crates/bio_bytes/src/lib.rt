// Bytes out of bio.rs: the start of a writer, and one byte stored.
#![tactic(auto)]

ghost use Rattle.std.specs.Prelude.{◌≡◌, cond, ◌-◌, ◌^◌, ◌≤◌, eqb, set};
ghost use Rattle.bio_bytes.specs.Writing.{output, empty_at, byte_out};

use t800::Bio;

pub fn opj_bio_init_enc(start: usize) -> Bio
    ensures { result ≡ empty_at start }
{
    Bio {
        bp: start,
        buf: 0,
        ct: 8,
    }
}

pub fn opj_bio_numbytes(b: Bio, start: usize) -> usize
    requires { start ≤ b.bp }
    ensures { result ≡ b.bp - start }
{
    b.bp - start
}

// How many bits of the next byte count, of the held word moved up.
pub fn bits_after(buf: u32) -> u32
    ensures { result ≡ cond (eqb buf 0xff00) 7 8 }
{
    if buf == 0xff00 { 7 } else { 8 }
}

// A number whose low k bits are 1.
pub fn low_ones(k: u32) -> u32
    requires { k ≤ 8 }
    ensures { result ≡ 2 ^ k - 1 }
{
    let above = 1u32 << k;
    above - 1
}

pub fn store(out: &mut [u8], at: usize, byte: u8)
    ensures { out.new ≡ set out.old at byte }
{
    if at < out.len() {
        out[at] = byte;
    }
}

pub fn opj_bio_byteout(out: &mut [u8], b: Bio) -> Bio
    ensures { output out.new result ≡ byte_out (output out.old b) }
{
    let bp = b.bp;
    let buf = (b.buf << 8) & 0xffff;
    store(out, bp, (buf >> 8) as u8);
    Bio {
        bp: bp.saturating_add(1),
        buf,
        ct: bits_after(buf),
    }
}
