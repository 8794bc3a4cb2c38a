// The bit record lent by `&mut` to put-bit, and moved on where it is (bio.rs).
#![tactic(auto)]

ghost use Rattle.std.specs.Prelude.{◌≡◌, ◌≤◌};
ghost use Rattle.bio_bytes.specs.Writing.{output, put_bit, FreeBitsClear};

use t800::Bio;

pub fn opj_bio_putbit(out: &mut [u8], b: &mut Bio, bit: u32)
    requires { (FreeBitsClear b.old) × (bit ≤ 1) }
    ensures { output out.new b.new ≡ put_bit (output out.old b.old) bit }
{
    *b = bio_write::opj_bio_putbit(out, *b, bit);
}

// For callers that hold the record by value: it stands in a local, which is lent for one bit.
pub fn bit_out(out: &mut [u8], b: Bio, bit: u32) -> Bio
    requires { (FreeBitsClear b) × (bit ≤ 1) }
    ensures { output out.new result ≡ put_bit (output out.old b) bit }
{
    let mut s = b;
    opj_bio_putbit(out, &mut s, bit);
    s
}
