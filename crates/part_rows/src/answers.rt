//! What closures of some kinds answer.

ghost use Rattle.std.specs.Prelude.{◌≡◌, Ok, Err, pos, negsuc, ◌≤ℤ◌, ◌+ℤ◌, neg_ℤ};

/// The greatest number whose double is an `i64`.
pub(crate) const GREATEST_HALF: i64 = 4_611_686_018_427_387_903;

pub(crate) fn double(x: i64) -> Result<i64, i64>
    requires low { negsuc 4611686018427387902 ≤ℤ x }
    requires high { x ≤ℤ pos 4611686018427387903 }
    ensures { result ≡ Ok (x +ℤ x) }
{
    Ok(x + x)
}

pub(crate) fn negate(x: i64) -> Result<i64, i64>
    requires { negsuc 9223372036854775806 ≤ℤ x }
    ensures { result ≡ Ok (neg_ℤ x) }
{
    Ok(-x)
}

pub(crate) fn fail(x: i64) -> Result<i64, i64>
    ensures { result ≡ Err x }
{
    Err(x)
}
