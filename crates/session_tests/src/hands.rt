// Honest hands, made of seats and of what they do.
use crate::calls::push;
use cipher::Cipher;
use permutation::rearrange;
use seat::Seat;
use seat::any::AnySeat;
use seat::generator::GeneratorSeat;
use seat::keyed::KeyedSeat;
use session::{Reply, Script, Step, run};
use std::alloc::{AllocError, Global};
use std::process::Abort;
use std::test::Fail;
use table::call::Call;
use verdict::Finding;

// A hand in the making: what was called, the last deck, the composed order, and the card of each
// draw.
#[derive(Drop)]
pub struct Hand<'a, C> {
    heap: Global,
    cipher: &'a C,
    seats: Vec<AnySeat>,
    steps: Vec<Step>,
    deck: Vec<u32>,
    cards: Vec<u8>,
    drawn: Vec<u8>,
}

fn order_of(heap: Global, seat: &AnySeat) -> Result<Vec<u8>, Fail> {
    let mut order = vec![in heap; 0u8; usize::from(seat.size())]?;
    seat.order(&mut order)?;
    Ok(order)
}

impl<'a, C: Cipher> Hand<'a, C> {
    // So many cards, and nothing done.
    pub fn start(heap: Global, cipher: &'a C, cards: u8) -> Result<Hand<'a, C>, Fail> {
        Ok(Hand {
            heap,
            cipher,
            seats: Vec::new(heap),
            steps: Vec::new(heap),
            deck: (0..cards)
                .map(|card| cipher.code(card).unwrap_or(0))
                .collect(heap)?,
            cards: (0..cards).collect(heap)?,
            drawn: Vec::new(heap),
        })
    }

    fn call(&mut self, call: Call) -> Result<(), AllocError> {
        push(&mut self.steps, Step::Move(call))
    }

    // The composed order is rearranged by the seat's.
    fn compose(&mut self, seat: &AnySeat) -> Result<(), Fail> {
        let order = order_of(self.heap, seat)?;
        let mut cards = vec![in self.heap; 0u8; self.cards.len()]?;
        rearrange(&self.cards, &order, &mut cards)?;
        self.cards = cards;
        Ok(())
    }

    // The next seat locks.
    fn lock(&mut self, seat: &AnySeat) -> Result<(), Fail> {
        let mut deck = vec![in self.heap; 0u32; self.deck.len()]?;
        seat.lock(self.cipher, &self.deck, &mut deck)?;
        self.deck = deck.clone()?;
        let seat = (self.seats.len() & 255) as u8;
        Ok(self.call(Call::Lock { seat, deck })?)
    }

    pub fn seat(&mut self, seat: AnySeat) -> Result<(), Fail> {
        self.compose(&seat)?;
        self.lock(&seat)?;
        Ok(push(&mut self.seats, seat)?)
    }

    fn share(&mut self, number: u8, chain: u32) -> Result<u32, Fail> {
        let sharer = self.seats.get(usize::from(number)).ok_or("no seat")?;
        let value = sharer.unlock(self.cipher, chain)?;
        self.call(Call::Share {
            seat: number,
            value,
        })?;
        Ok(value)
    }

    // A seat draws a place, and the others of those named share in turn. Where some seat does
    // not, the draw is abandoned.
    pub fn deal(&mut self, seat: u8, place: u8, sharers: &[u8]) -> Result<(), Fail> {
        let at = usize::from(place);
        self.drawn.push(self.cards.get(at).copied().unwrap_or(255))?;
        let mut value = self.deck.get(at).copied().unwrap_or(0);
        self.call(Call::Draw { seat, place })?;
        let seats = self.seats.len();
        let others: Vec<u8> = sharers
            .iter()
            .copied()
            .filter(|sharer| *sharer != seat && usize::from(*sharer) < seats)
            .collect(self.heap)?;
        for sharer in &others {
            value = self.share(*sharer, value)?;
        }
        if seats.saturating_sub(others.len()) > 1 {
            self.call(Call::Abandon)?;
        }
        Ok(())
    }

    fn disclose(&mut self, number: u8) -> Result<(), Fail> {
        let seat = self.seats.get(usize::from(number)).ok_or("no seat")?;
        let key = seat.key(self.cipher);
        let order = order_of(self.heap, seat)?;
        Ok(self.call(Call::Disclose {
            seat: number,
            key,
            order,
        })?)
    }

    fn show(&mut self, draw: u8) -> Result<(), AllocError> {
        let card = self.drawn.get(usize::from(draw)).copied().unwrap_or(255);
        self.call(Call::Show { draw, card })
    }

    fn close_and_show(&mut self, shown: &[u8]) -> Result<(), AllocError> {
        self.call(Call::Close)?;
        for draw in shown {
            self.show(*draw)?;
        }
        self.call(Call::Close)
    }

    // The rest of the hand: the draws that are shown, and the seats that disclose.
    pub fn end(mut self, shown: &[u8], disclosed: &[u8]) -> Result<Script, Fail> {
        self.close_and_show(shown)?;
        for seat in disclosed {
            self.disclose(*seat)?;
        }
        push(&mut self.steps, Step::Audit)?;
        Ok(Script {
            seats: (self.seats.len() & 255) as u8,
            cards: (self.cards.len() & 255) as u8,
            steps: self.steps,
        })
    }
}

pub fn keyed(heap: Global, key: u32, order: &[u8]) -> Result<AnySeat, Fail> {
    Ok(AnySeat::Keyed(KeyedSeat::new(key, order.to_vec(heap)?)?))
}

// So many seats, whose keys and orders come from starts, have locked.
pub fn seated<C: Cipher>(
    heap: Global,
    cipher: &C,
    seats: u8,
    cards: u8,
) -> Result<Hand<'_, C>, Fail> {
    let mut hand = Hand::start(heap, cipher, cards)?;
    for number in 0..seats {
        let seat = GeneratorSeat::new(u32::from(number) * 8000000 + 192, cards)?;
        hand.seat(AnySeat::Generator(seat))?;
    }
    Ok(hand)
}

// What the calls of a list that are all accepted have numbered so far: entries are numbered from
// 0, and closes begin phases 2 and 3.
#[derive(Clone, Copy)]
pub struct Count {
    pub entry: usize,
    pub phase: usize,
}

pub const FIRST: Count = Count { entry: 0, phase: 1 };

// What an accepted call answers. An audit finds what is due.
pub fn next_reply(count: &mut Count, step: &Step, due: Option<Finding>) -> Reply {
    match step {
        Step::Audit => Reply::Audited(due),
        Step::Move(Call::Close) => {
            count.phase = count.phase.wrapping_add(1);
            Reply::Entered(count.phase)
        }
        Step::Move(_) => {
            let entry = count.entry;
            count.entry = entry.wrapping_add(1);
            Reply::Entered(entry)
        }
    }
}

// Every call of the script is accepted, and the audit finds what is due.
pub fn check_hand<C: Cipher>(
    rt: &(impl Abort + AllocGlobal),
    cipher: &C,
    script: &Script,
    due: Option<Finding>,
) -> Result<(), Fail> {
    let replies = run(rt.alloc(), cipher, script)?;
    assert_eq!(rt; replies.len(), script.steps.len());
    let mut count = FIRST;
    for (reply, step) in replies.iter().zip(script.steps.iter()) {
        assert_eq!(rt; *reply, Ok(next_reply(&mut count, step, due)));
    }
    Ok(())
}
