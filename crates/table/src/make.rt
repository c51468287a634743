// Starting a table, and making a call on it.
ghost use Rattle.std.specs.Prelude.{◌≡◌, true, if◌then◌else◌, MatchResult};
ghost use Rattle.cipher.specs.Cipher.{CipherMeaning};
ghost use Rattle.table.specs.State.{empty_table, lock, draw, share, abandon, close, show, disclose};
ghost use Rattle.table.specs.Rules.{judge, after, within_limits};
ghost use Rattle.table.specs.Model.{state_of};
ghost use Rattle.table.specs.Calls.{move_of};
ghost use Rattle.table.specs.declared.fault.TableFault.TheVariants.{NoMemory, OutsideLimits};

use crate::call::Call;
use crate::fault::TableFault;
use crate::record::{Phase, Record};
use crate::table::Table;
use cipher::{CARDS, Cipher};
use std::alloc::Global;

impl Table {
    // A table with nothing entered. All the room that a hand can want is reserved here, so that
    // no other call can want memory.
    pub fn start(heap: Global, seats: u8, cards: u8) -> Result<Table, TableFault>
        ensures { MatchResult result (λ t. (within_limits seats cards ≡ true) × (state_of t ≡ empty_table seats cards)) (λ e. e ≡ (if within_limits seats cards then NoMemory else OutsideLimits)) }
    {
        if !(2..=8).contains(&seats) || !(2..=CARDS).contains(&cards) {
            return Err(TableFault::OutsideLimits);
        }
        let s = usize::from(seats);
        let d = usize::from(cards);
        let decks = Vec::with_capacity(heap, s * d)?;
        let draws = Vec::with_capacity(heap, d)?;
        let disclosures = Vec::with_capacity(heap, s)?;
        let orders = Vec::with_capacity(heap, s * d)?;
        let moves = Vec::with_capacity(heap, 2 * s + (d * (s + 1) + 2))?;
        let held = Record {
            seats,
            cards,
            phase: Phase::Locking,
            locked: 0,
            decks,
            draws,
            disclosures,
            orders,
            moves,
        };
        Ok(Table { held })
    }

    // A new table in the place of this one; refused, this one stays.
    pub fn restart(&mut self, heap: Global, seats: u8, cards: u8) -> Result<(), TableFault>
        ensures { MatchResult result (λ _. (within_limits seats cards ≡ true) × (state_of self.new ≡ empty_table seats cards)) (λ e. (e ≡ (if within_limits seats cards then NoMemory else OutsideLimits)) × (state_of self.new ≡ state_of self.old)) }
    {
        *self = Table::start(heap, seats, cards)?;
        Ok(())
    }

    // Makes one call of a list: the phase and the call together decide.
    pub fn make<C: Cipher>(&mut self, cipher: &C, call: &Call) -> Result<usize, TableFault>
        ensures answer { result ≡ judge (C.Cipher.meaning cipher.now) (state_of self.old) (move_of call.now) }
        ensures made { state_of self.new ≡ after result (state_of self.old) (move_of call.now) }
    {
        match (self.held.phase, call) {
            (Phase::Locking, Call::Lock { seat, deck }) => self.enter_lock(cipher, *seat, deck),
            (Phase::Dealing, Call::Draw { seat, place }) => self.enter_draw(*seat, *place),
            (Phase::Dealing, Call::Share { seat, value }) => self.enter_share(
                cipher, *seat, *value,
            ),
            (Phase::Dealing, Call::Abandon) => self.enter_abandon(),
            (Phase::Dealing, Call::Close) => self.enter_close(),
            (Phase::Showdown, Call::Close) => self.enter_close(),
            (Phase::Showdown, Call::Show { draw, card }) => self.enter_show(*draw, *card),
            (Phase::Audit, Call::Disclose { seat, key, order }) => self.enter_disclose(
                cipher, *seat, *key, order,
            ),
            (phase, _) => Err(TableFault::WrongPhase(phase)),
        }
    }

    pub fn lock<C: Cipher>(
        &mut self,
        cipher: &C,
        seat: u8,
        deck: &[u32],
    ) -> Result<usize, TableFault>
        ensures answer { result ≡ judge (C.Cipher.meaning cipher.now) (state_of self.old) (lock seat deck.now) }
        ensures made { state_of self.new ≡ after result (state_of self.old) (lock seat deck.now) }
    {
        match self.held.phase {
            Phase::Locking => self.enter_lock(cipher, seat, deck),
            phase => Err(TableFault::WrongPhase(phase)),
        }
    }

    pub fn draw(&mut self, seat: u8, place: u8) -> Result<usize, TableFault>
        ensures answer { (m : CipherMeaning) → result ≡ judge m (state_of self.old) (draw seat place) }
        ensures made { state_of self.new ≡ after result (state_of self.old) (draw seat place) }
    {
        match self.held.phase {
            Phase::Dealing => self.enter_draw(seat, place),
            phase => Err(TableFault::WrongPhase(phase)),
        }
    }

    pub fn share<C: Cipher>(
        &mut self,
        cipher: &C,
        seat: u8,
        value: u32,
    ) -> Result<usize, TableFault>
        ensures answer { result ≡ judge (C.Cipher.meaning cipher.now) (state_of self.old) (share seat value) }
        ensures made { state_of self.new ≡ after result (state_of self.old) (share seat value) }
    {
        match self.held.phase {
            Phase::Dealing => self.enter_share(cipher, seat, value),
            phase => Err(TableFault::WrongPhase(phase)),
        }
    }

    pub fn abandon(&mut self) -> Result<usize, TableFault>
        ensures answer { (m : CipherMeaning) → result ≡ judge m (state_of self.old) (abandon) }
        ensures made { state_of self.new ≡ after result (state_of self.old) (abandon) }
    {
        match self.held.phase {
            Phase::Dealing => self.enter_abandon(),
            phase => Err(TableFault::WrongPhase(phase)),
        }
    }

    pub fn close(&mut self) -> Result<usize, TableFault>
        ensures answer { (m : CipherMeaning) → result ≡ judge m (state_of self.old) (close) }
        ensures made { state_of self.new ≡ after result (state_of self.old) (close) }
    {
        match self.held.phase {
            Phase::Dealing => self.enter_close(),
            Phase::Showdown => self.enter_close(),
            phase => Err(TableFault::WrongPhase(phase)),
        }
    }

    pub fn show(&mut self, draw: u8, card: u8) -> Result<usize, TableFault>
        ensures answer { (m : CipherMeaning) → result ≡ judge m (state_of self.old) (show draw card) }
        ensures made { state_of self.new ≡ after result (state_of self.old) (show draw card) }
    {
        match self.held.phase {
            Phase::Showdown => self.enter_show(draw, card),
            phase => Err(TableFault::WrongPhase(phase)),
        }
    }

    pub fn disclose<C: Cipher>(
        &mut self,
        cipher: &C,
        seat: u8,
        key: u32,
        order: &[u8],
    ) -> Result<usize, TableFault>
        ensures answer { result ≡ judge (C.Cipher.meaning cipher.now) (state_of self.old) (disclose seat key order.now) }
        ensures made { state_of self.new ≡ after result (state_of self.old) (disclose seat key order.now) }
    {
        match self.held.phase {
            Phase::Audit => self.enter_disclose(cipher, seat, key, order),
            phase => Err(TableFault::WrongPhase(phase)),
        }
    }
}
