// The calls of the worked hand.
ghost use Rattle.std.specs.Prelude.{◌≡◌, map, IfOk};
ghost use Rattle.session.specs.Steps.{asked_by, calls_of};
ghost use Rattle.worked.specs.Hand.{played, hand};

use session::{Script, Step};
use std::alloc::{AllocError, Global};
use table::call::Call;

// Two seats and three cards, both keys 5, orders 1 2 0 and 0 2 1; the card is shown for draw 0.
pub fn worked_hand(heap: Global, card: u8) -> Result<Script, AllocError>
    ensures { IfOk result (λ s. (s.seats ≡ 2) × (s.cards ≡ 3) × (calls_of s ≡ hand card)) }
{
    let once = vec![in heap; 984943658, 470211272, 282475249]?;
    let twice = vec![in heap; 143542612, 2007237709, 1505795335]?;
    let orders = (vec![in heap; 1, 2, 0]?, vec![in heap; 0, 2, 1]?);
    let steps = played(heap, (once, twice), orders, card)?;
    Ok(Script {
        seats: 2,
        cards: 3,
        steps,
    })
}

// Seat 1 draws place 1 and seat 0 draws place 0; each shares for the other.
fn played(
    heap: Global,
    decks: (Vec<u32>, Vec<u32>),
    orders: (Vec<u8>, Vec<u8>),
    card: u8,
) -> Result<Vec<Step>, AllocError>
    ensures { IfOk result (λ v. map asked_by v.items ≡ played decks.0.items decks.1.items orders.0.items orders.1.items card) }
{
    let key = 5;
    let (value, w) = (282475249, 984943658);
    let (deck, e) = decks;
    let (order, p) = orders;
    let steps = vec![in heap;
        Step::Move(Call::Lock { seat: 0, deck }),
        Step::Move(Call::Lock { seat: 1, deck: e }),
        Step::Move(Call::Draw { seat: 1, place: 1 }),
        Step::Move(Call::Share { seat: 0, value }),
        Step::Move(Call::Draw { seat: 0, place: 0 }),
        Step::Move(Call::Share { seat: 1, value: w }),
        Step::Move(Call::Close),
        Step::Move(Call::Show { draw: 0, card }),
        Step::Move(Call::Show { draw: 1, card: 1 }),
        Step::Move(Call::Close),
        Step::Move(Call::Disclose {
            seat: 0,
            key,
            order
        }),
        Step::Move(Call::Disclose {
            seat: 1,
            key,
            order: p
        }),
        Step::Audit,
    ]?;
    Ok(steps)
}
