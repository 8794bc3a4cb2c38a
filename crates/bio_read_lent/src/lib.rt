// The bit record lent by `&mut` to get-bit, and moved on where it is (bio.rs).
#![tactic(auto)]

ghost use Rattle.std.specs.Prelude.{◌≡◌, ◌≤◌};
ghost use Rattle.t800.specs.Bits.{get_bit, read_bit};
ghost use Rattle.bio_read.specs.Reading.{decoded};

use bio_read::{Bit, Decoded};
use t800::Bio;

pub fn opj_bio_getbit(src: &[u8], b: &mut Bio) -> Bit
    requires { b.old.ct ≤ 8 }
    ensures { record { value = result.value; past = result.past; bio = b.new } ≡ read_bit src.now b.old }
{
    let r = bio_read::opj_bio_getbit(src, *b);
    *b = r.bio;
    r.bit
}

// For callers that hold the record by value: it stands in a local, which is lent for one bit.
pub fn bit_in(src: &[u8], b: Bio) -> Decoded
    requires { b.ct ≤ 8 }
    ensures { decoded result ≡ get_bit src.now b }
{
    let mut s = b;
    let bit = opj_bio_getbit(src, &mut s);
    Decoded {
        value: bit.value,
        bio: s,
    }
}
