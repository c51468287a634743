// Reading a record. What it does not hold is read as 0, so that no reading can fail.
ghost use Rattle.std.specs.Prelude.{◌≡◌, ◌+◌, ◌*◌, ◌^◌, ◌<◌, ◌==◌, slice_index, slice_index_or, position};
ghost use Rattle.table.specs.State.{draw_at};
ghost use Rattle.table.specs.Model.{state_of_record};
ghost use Rattle.verdict.specs.Tables.{part, disclosure_of, told_of};
ghost use Rattle.verdict.specs.Forward.{deck_after};

use crate::hearing::Hearing;
use cipher::Cipher;

// An item of one of the parts, each so long, that stand one after the other.
fn part_item<T: Copy>(items: &[T], number: usize, long: u8, place: u8, none: T) -> T
    requires { number * long + place < 2 ^ 64 }
    ensures { result ≡ slice_index_or items.now (number * long + place) none }
{
    let start = number * usize::from(long);
    items
        .get(start + usize::from(place))
        .copied()
        .unwrap_or(none)
}

impl<C> Hearing<'_, C> {
    // Who drew, and the chain value.
    pub(crate) fn drawn(&self, draw: u8) -> (u8, u32)
        ensures { let d = draw_at (state_of_record self.now.record.now) draw in result ≡ (d.seat, d.value) }
    {
        let drawn = self.record.draws.get(usize::from(draw));
        drawn.map_or((0, 0), |d| (d.seat, d.value))
    }

    // Which of the disclosures is the seat's.
    fn disclosure_of(&self, seat: u8) -> Option<usize>
        ensures { result ≡ position (λ d. d.seat == seat) self.now.record.now.disclosures.items }
    {
        self.record.disclosures.iter().position(|d| d.seat == seat)
    }

    // The same, or the count of the disclosures if none is the seat's.
    fn disclosure_or_end(&self, seat: u8) -> usize
        ensures { result ≡ disclosure_of (state_of_record self.now.record.now) seat }
    {
        self.disclosure_of(seat)
            .unwrap_or(self.record.disclosures.len())
    }

    // The key that the seat disclosed.
    pub(crate) fn key_of(&self, seat: u8) -> u32
        ensures { result ≡ (told_of (state_of_record self.now.record.now)).key seat }
    {
        let told = self.record.disclosures.get(self.disclosure_or_end(seat));
        told.map_or(0, |d| d.key)
    }

    // The place that the seat's order holds at a place.
    pub(crate) fn order_value(&self, seat: u8, place: u8) -> u8
        requires within { place < self.now.record.now.cards }
        ensures { result ≡ slice_index ((told_of (state_of_record self.now.record.now)).order seat) place }
    {
        let order = self.disclosure_or_end(seat);
        part_item(&self.record.orders, order, self.record.cards, place, 0)
    }

    // The value at a place of the deck that a lock entered.
    pub(crate) fn entered_value(&self, lock: u16, place: u8) -> u32
        requires within { place < self.now.record.now.cards }
        ensures { result ≡ slice_index (part self.now.record.now.cards lock self.now.record.now.decks.items) place }
    {
        let lock = usize::from(lock);
        part_item(&self.record.decks, lock, self.record.cards, place, 0)
    }
}

impl<C: Cipher> Hearing<'_, C> {
    // The value at a place of the deck after a number of locks: before the first it holds the
    // cards' codes.
    pub(crate) fn deck_value(&self, locks: u16, place: u8) -> u32
        ensures { result ≡ slice_index (deck_after (C.Cipher.meaning self.now.cipher.now) (state_of_record self.now.record.now) locks) place }
    {
        if place >= self.record.cards {
            return 0;
        }
        if locks == 0 {
            return self.cipher.code(place).unwrap_or(0);
        }
        self.entered_value(locks - 1, place)
    }
}
