// Orders of a deck's cards: the check that a list of places is an order, and rearranging by one.
#![tactic(auto)]

ghost use Rattle.std.specs.Prelude.{◌≡◌, length, replicate, MatchResult};
ghost use Rattle.permutation.specs.Answer.{rearrange_answer};
ghost use Rattle.permutation.specs.Permutation.{Within, permutes, rearranged};

pub mod blank;
pub mod fault;

use blank::Blank;
use fault::OrderFault;

// No deck has more cards.
pub const MOST_CARDS: usize = 52;

// A byte is one of so many numbers.
const BYTE_VALUES: usize = u8::MAX as usize + 1;

// Whether `order` holds each number below its length exactly once.
pub fn is_permutation(order: &[u8]) -> bool
    ensures { result ≡ permutes order.now }
{
    let mut seen = [false; BYTE_VALUES];
    for x in order {
        let place = usize::from(*x);
        if place >= order.len() || seen[place] {
            return false;
        }
        seen[place] = true;
    }
    true
}

// Writes to `target` the elements of `list` in the order given, or blanks if it refuses.
pub fn rearrange<T: Copy + Blank>(
    list: &[T],
    order: &[u8],
    target: &mut [T],
) -> Result<(), OrderFault>
    ensures answer { result ≡ rearrange_answer (length list.now) order.now (length target.old) }
    ensures written { MatchResult result (λ _. (d : T) → target.new ≡ rearranged d list.now order.now) (λ _. target.new ≡ replicate (length target.old) T.blank) }
{
    let answer = check(list.len(), order, target.len());
    match answer {
        Ok(()) => gather(list, order, target),
        Err(_) => fill(target, T::blank()),
    }
    answer
}

// Whether the order fits a list and a target of these lengths.
fn check(listed: usize, order: &[u8], targeted: usize) -> Result<(), OrderFault>
    ensures { result ≡ rearrange_answer listed order.now targeted }
{
    let ordered = order.len();
    if listed != ordered || targeted != ordered || ordered > MOST_CARDS {
        return Err(OrderFault::WrongLength(ordered));
    }
    if !is_permutation(order) {
        return Err(OrderFault::NotOrder);
    }
    Ok(())
}

// Writes to each place of `target` the element of `list` at the place that `order` holds there.
fn gather<T: Copy>(list: &[T], order: &[u8], target: &mut [T])
    requires lengths { length target.old ≡ length order.now }
    requires within { Within (length list.now) order.now }
    ensures { (d : T) → target.new ≡ rearranged d list.now order.now }
{
    for (i, place) in order.iter().enumerate() {
        target[i] = list[usize::from(*place)];
    }
}

// Writes `x` to each place of `target`.
pub fn fill<T: Copy>(target: &mut [T], x: T)
    ensures { target.new ≡ replicate (length target.old) x }
{
    target.fill_with(|| x);
}
