// The last word of a product; the difference of two words as a signed number; a signed number without its sign.
ghost use Rattle.word64.specs.Word.{LastOfProductSays, SignedDifferenceSays, MagnitudeSays};

// a * b without what stands above its last word.
pub fn last_of_product(a: u64, b: u64) -> u64
    ensures { LastOfProductSays a b result }
{
    a.wrapping_mul(b)
}

// a - b, if that is from -2^63 to 2^63 - 1; otherwise the number there that differs from it by a multiple of 2^64.
pub fn signed_difference(a: u64, b: u64) -> i64
    ensures { SignedDifferenceSays a b result }
{
    a.wrapping_sub(b).cast_signed()
}

// z without its sign.
pub fn magnitude(z: i64) -> u64
    ensures { MagnitudeSays z result }
{
    z.unsigned_abs()
}
