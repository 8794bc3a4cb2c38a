// The logarithm, the smaller and the larger of two numbers (math.rs).
#![tactic(auto)]

ghost use Rattle.std.specs.Prelude.{◌≡◌, min, max};
ghost use Rattle.t800.specs.Base.{floor_log2};

// `opj_int_floorlog2` of the source is used on numbers that aren't negative, and is this one.
pub fn opj_uint_floorlog2(a: u32) -> u32
    ensures { result ≡ floor_log2 a }
{
    31 - u32::leading_zeros(a | 1)
}

pub fn opj_uint_min(a: u32, b: u32) -> u32
    ensures { result ≡ min a b }
{
    a.min(b)
}

pub fn opj_uint_max(a: u32, b: u32) -> u32
    ensures { result ≡ max a b }
{
    a.max(b)
}
