// Division that truncates toward zero, as `/` and MOD of IEC 61131-3, table 29.

ghost use Rattle.std.specs.Prelude.{◌≡◌, ℤ, ◌<ℤ◌, IfSome, pos};
ghost use Rattle.num_core.specs.Division.{quot, rem, IsQuotient, IsRemainder};

/// The quotient of `a` by `b`, rounded toward zero.
pub fn quot(a: i128, b: i128) -> Option<i128>
    requires above_the_least { i128.MIN <ℤ a }
    ensures value { result ≡ quot a b }
    ensures divides { IfSome result (IsQuotient a b) }
    ensures only { IfSome result (λ q. (n : ℤ) → IsQuotient a b n → n ≡ q) }
{
    if b == 0 { None } else { Some(a / b) }
}

/// What the quotient of `a` by `b` leaves.
pub fn rem(a: i128, b: i128) -> Option<i128>
    requires above_the_least { i128.MIN <ℤ a }
    ensures value { result ≡ rem a b }
    ensures divides { IfSome result (IsRemainder a b) }
    ensures only { IfSome result (λ r. (n : ℤ) → IsRemainder a b n → n ≡ r) }
{
    if b == 0 { None } else { Some(a % b) }
}
