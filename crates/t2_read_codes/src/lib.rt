// The codes of a packet header as read: pass counts, and the run of ones that adds to the length bits (t2.rs).
#![tactic(auto)]

ghost use Rattle.std.specs.Prelude.{◌≡◌, ◌+◌, ◌≤◌};
ghost use Rattle.t800.specs.PassCount.{plus, read_passes};
ghost use Rattle.bio_read.specs.Reading.{decoded};
ghost use Rattle.t2_read_codes.specs.PassCount.{read_from3};
ghost use Rattle.t2_read_codes.specs.CommaCode.{ones_limit, read_comma_limited};

use bio_read::Decoded;
use t800::Bio;

fn plus(k: u32, r: Decoded) -> Decoded
    requires { k + r.value ≤ 164 }
    ensures { decoded result ≡ plus k (decoded r) }
{
    let bio = r.bio;
    Decoded {
        value: k + r.value,
        bio,
    }
}

// After two ones.
fn passes_from_3(src: &[u8], b: Bio) -> Decoded
    requires { b.ct ≤ 8 }
    ensures { decoded result ≡ read_from3 src.now b }
{
    let two = bio_read::opj_bio_read(src, b, 2);
    if two.value <= 2 {
        return plus(3, two);
    }
    let five = bio_read::opj_bio_read(src, two.bio, 5);
    if five.value <= 30 {
        return plus(6, five);
    }
    plus(37, bio_read::opj_bio_read(src, five.bio, 7))
}

pub fn opj_t2_getnumpasses(src: &[u8], b: Bio) -> Decoded
    requires { b.ct ≤ 8 }
    ensures { decoded result ≡ read_passes src.now b }
{
    let first = bio_read_lent::bit_in(src, b);
    if first.value == 0 {
        let bio = first.bio;
        return Decoded { value: 1, bio };
    }
    let second = bio_read_lent::bit_in(src, first.bio);
    if second.value == 0 {
        let bio = second.bio;
        return Decoded { value: 2, bio };
    }
    passes_from_3(src, second.bio)
}

// A length field is at most 32 bits wide, so that a run of 30 ones or more is refused whatever follows, and isn't read to its end.
const MOST_ONES: u32 = 64;

// For inputs of fewer than 56 bits, the definition's own bound on the ones.
fn ones_limit(src: &[u8]) -> u32
    ensures { result ≡ ones_limit src.now }
{
    if src.len() < 7 {
        return src.len() as u32 * 8 + 8;
    }
    MOST_ONES
}

pub fn opj_t2_getcommacode(src: &[u8], b: Bio) -> Decoded
    requires { b.ct ≤ 8 }
    ensures { decoded result ≡ read_comma_limited src.now b }
{
    let mut bio = b;
    let limit = ones_limit(src);
    for value in 0..limit {
        let r = bio_read_lent::bit_in(src, bio);
        bio = r.bio;
        if r.value == 0 {
            return Decoded { value, bio };
        }
    }
    Decoded { value: limit, bio }
}
