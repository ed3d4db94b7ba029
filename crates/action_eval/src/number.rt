//! Numbers of sums.

ghost use Rattle.std.specs.Prelude.{◌≡◌, ◌≤ℤ◌, pos, neg_ℤ};
ghost use Rattle.action_check.specs.Limits.{most_literal};
ghost use Rattle.action_meaning.specs.Values as spec;

use action_tree::Cmp;

/// Whether two numbers are so compared.
pub fn compare(cmp: Cmp, left: i32, right: i32) -> bool
    ensures { result ≡ spec.compare cmp left right }
{
    match cmp {
        Cmp::Eq => left == right,
        Cmp::Ne => left != right,
        Cmp::Lt => left < right,
        Cmp::Le => left <= right,
        Cmp::Gt => left > right,
        Cmp::Ge => left >= right,
    }
}

/// The number, with a minus or without.
pub fn signed(minus: bool, value: i32) -> i32
    requires { (pos 0 ≤ℤ value) × (value ≤ℤ pos most_literal) }
    ensures value { result ≡ spec.signed minus value }
    ensures range { (neg_ℤ (pos most_literal) ≤ℤ result) × (result ≤ℤ pos most_literal) }
{
    if minus { -value } else { value }
}
