// The codes of a packet header as written: pass counts by one table, and the run of ones that adds to the length bits (t2.rs).
#![tactic(auto)]

ghost use Rattle.std.specs.Prelude.{◌≡◌, ◌≤◌, T};
ghost use Rattle.t800.specs.PassCount.{pass_bits};
ghost use Rattle.t800.specs.Segments.{comma_bits};
ghost use Rattle.bio_bytes.specs.Writing.{output, put_bits, FreeBitsClear};
ghost use Rattle.t2_write_codes.specs.PassTable.{is_pass_table, IsCodewordOf};

use pass_codes::PASS_CODES;
use t800::Bio;

pub mod pass_codes;

// The low `len` bits of `value`.
#[derive(Clone, Copy)]
struct Codeword {
    value: u32,
    len: u32,
}

fn codeword_of(codes: &[u16; 328], n: u32) -> Codeword
    requires { (T (is_pass_table codes.now)) × (1 ≤ n) × (n ≤ 164) }
    ensures { IsCodewordOf n result }
{
    let i = (n - 1) as usize;
    Codeword {
        value: u32::from(codes[i]),
        len: u32::from(codes[i + 164]),
    }
}

// With the table lent: a caller that puts many makes it once, since a constant array is made anew wherever it is named.
pub fn put_pass_codeword(codes: &[u16; 328], out: &mut [u8], b: Bio, n: u32) -> Bio
    requires { (T (is_pass_table codes.now)) × (FreeBitsClear b) × (1 ≤ n) × (n ≤ 164) }
    ensures { output out.new result ≡ put_bits (output out.old b) (pass_bits n) }
{
    let c = codeword_of(codes, n);
    bio_write::opj_bio_write(out, b, c.value, c.len)
}

pub fn opj_t2_putnumpasses(out: &mut [u8], b: Bio, n: u32) -> Bio
    requires { (FreeBitsClear b) × (1 ≤ n) × (n ≤ 164) }
    ensures { output out.new result ≡ put_bits (output out.old b) (pass_bits n) }
{
    let codes = PASS_CODES;
    put_pass_codeword(&codes, out, b, n)
}

// Thirty ones at a time, and the rest with the zero as one number.
pub fn opj_t2_putcommacode(out: &mut [u8], b: Bio, n: u32) -> Bio
    requires { FreeBitsClear b }
    ensures { output out.new result ≡ put_bits (output out.old b) (comma_bits n) }
{
    let mut bio = b;
    let mut left = n;
    while 30 < left {
        bio = bio_write::opj_bio_write(out, bio, 0x3fff_ffff, 30);
        left -= 30;
    }
    bio_write::opj_bio_write(out, bio, (2 << left) - 2, left + 1)
}
