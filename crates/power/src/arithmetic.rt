// Powers in a field, and inverses modulo its order.
ghost use Rattle.std.specs.Prelude.{◌≡◌, ◌<◌, ◌≤◌, if◌then◌else◌, Some, None, nat_eq};
ghost use Rattle.field.specs.Power.{power};
ghost use Rattle.power.specs.Keys.{gcd, inverse};

use field::Field;

// A number of the field to the power k, by squaring.
pub(crate) fn raise<F: Field>(field: &F, x: u32, k: u32) -> u32
    requires { x ≤ (F.meaning field.now).last }
    ensures { result ≡ power (F.meaning field.now).times x k }
{
    let mut result = 1;
    let mut square = x;
    let mut left = k;
    while left > 0 {
        if left % 2 == 1 {
            result = field.times(result, square);
        }
        square = field.times(square, square);
        left /= 2;
    }
    result
}

// The inverse of k modulo n, by Euclid's steps: none where k shares a divisor with n.
// Each remainder is, up to its sign, a multiple of k modulo n; `s` is the factor of `high`
// and `t` that of `low`. The signs alternate.
pub(crate) fn invert(k: u32, n: u32) -> Option<u32>
    requires below { k < n }
    requires two { 2 ≤ n }
    ensures { result ≡ (if nat_eq (gcd k n) 1 then Some (inverse k n) else None) }
{
    let mut high = n;
    let mut low = k;
    let mut s = 0;
    let mut t = 1;
    let mut positive = false;
    while low > 0 {
        let quotient = high / low;
        let rest = high % low;
        let next = s + quotient * t;
        high = low;
        low = rest;
        s = t;
        t = next;
        positive = !positive;
    }
    (high == 1).then_some(if positive { s } else { n - s })
}
