// The calls on a table, each in its phase.
ghost use Rattle.std.specs.Prelude.{◌≡◌, ◌<◌, true, vec_len};
ghost use Rattle.std.specs.Fn.{FnOnceTakesAtMut, FnOnceReturnsAtMut};
ghost use Rattle.table.specs.declared.record.DrawRecord.{DrawRecord};
ghost use Rattle.table.specs.State.{draw_at, with_draw, shared_by, lock, draw, share, abandon, close, show, disclose};
ghost use Rattle.table.specs.Rules.{after, closable, lock_rules, disclose_rules, draw_rules, share_rules, abandon_rules, close_rules, show_rules};
ghost use Rattle.table.specs.View.{entry_number, view_of};
ghost use Rattle.table.specs.Sound.{Continues};
ghost use Rattle.table.specs.Model.{state_of};
ghost use Rattle.table.specs.declared.record.Phase.TheVariants.{Locking, Dealing};

use crate::fault::{SeatedFault, TableFault};
use crate::record::{Disclosure, DrawRecord, End, Event, Phase};
use crate::table::Table;
use cipher::fault::CipherFault;
use cipher::{Cipher, check_deck};
use permutation::is_permutation;

impl Table {
    // The number of the next entry: every move but a close makes one.
    fn entry_number(&self) -> usize
        ensures { result ≡ entry_number (state_of self.now) }
    {
        let closes = match self.held.phase {
            Phase::Locking => 0,
            Phase::Dealing => 0,
            Phase::Showdown => 1,
            Phase::Audit => 2,
        };
        self.held.moves.len() - closes
    }

    // Lends the record of one draw, and no other, to be changed, and notes the move. Answers the
    // entry's number.
    fn change_draw<F: FnOnce(&mut DrawRecord)>(
        &mut self,
        number: usize,
        event: Event,
        change: F,
    ) -> usize
        requires within { number < vec_len self.old.held.draws }
        requires callable { FnOnceTakesAtMut F.FnOnce change (draw_at (state_of self.old) number) }
        requires fits { (changed : DrawRecord) → FnOnceReturnsAtMut F.FnOnce change (draw_at (state_of self.old) number) tt changed → Continues self.old.held.seats (draw_at (state_of self.old) number) changed }
        ensures entry { result ≡ entry_number (state_of self.old) }
        ensures made { (changed : DrawRecord) × FnOnceReturnsAtMut F.FnOnce change (draw_at (state_of self.old) number) tt changed × (state_of self.new ≡ with_draw (state_of self.old) number changed event) }
    {
        let entry = self.entry_number();
        change(&mut self.held.draws[number]);
        self.held.moves.push_reserved(event);
        entry
    }

    pub(crate) fn enter_abandon(&mut self) -> Result<usize, TableFault>
        ensures answer { result ≡ abandon_rules (view_of (state_of self.old)) }
        ensures made { state_of self.new ≡ after result (state_of self.old) abandon }
    {
        let running = self.running().ok_or(TableFault::NoDrawRunning)?;
        let number = usize::from(running);
        Ok(self.change_draw(number, Event::Abandon, DrawRecord::abandon))
    }

    pub(crate) fn enter_share<C: Cipher>(
        &mut self,
        cipher: &C,
        seat: u8,
        value: u32,
    ) -> Result<usize, TableFault>
        ensures answer { result ≡ share_rules (view_of (state_of self.old)) (C.Cipher.meaning cipher.now) seat value }
        ensures made { state_of self.new ≡ after result (state_of self.old) (share seat value) }
    {
        let running = self.running().ok_or(TableFault::NoDrawRunning)?;
        if seat >= self.held.seats {
            return Err(TableFault::NoSeat(seat));
        }
        let number = usize::from(running);
        let draw = &self.held.draws[number];
        if seat == draw.seat {
            return Err(TableFault::OwnShare(seat));
        }
        if draw.shared[usize::from(seat)] {
            return Err(TableFault::SecondShare(seat));
        }
        if !cipher.is_value(value) {
            let fault = CipherFault::NotValue { place: 0, value };
            return Err(TableFault::Cipher { seat, fault });
        }
        let seats = self.held.seats;
        let share = Event::Share { seat, value };
        let add = |draw: &mut DrawRecord|
            requires seated { seat < 8 }
            requires shares { draw.old.shares < 8 }
            ensures { draw.new ≡ shared_by seats seat value draw.old }
        {
            draw.add_share(seats, seat, value);
        };
        Ok(self.change_draw(number, share, add))
    }

    pub(crate) fn enter_show(&mut self, draw: u8, card: u8) -> Result<usize, TableFault>
        ensures answer { result ≡ show_rules (view_of (state_of self.old)) draw card }
        ensures made { state_of self.new ≡ after result (state_of self.old) (show draw card) }
    {
        let number = usize::from(draw);
        let drawn = self
            .held
            .draws
            .get(number)
            .ok_or(TableFault::NotDealt(draw))?;
        let End::Dealt = drawn.end else {
            return Err(TableFault::NotDealt(draw));
        };
        if drawn.shown {
            return Err(TableFault::AlreadyShown(draw));
        }
        if card >= self.held.cards {
            return Err(TableFault::NoCard(card));
        }
        Ok(self.change_draw(number, Event::Show { draw, card }, DrawRecord::reveal))
    }

    pub(crate) fn enter_draw(&mut self, seat: u8, place: u8) -> Result<usize, TableFault>
        requires { self.old.held.locked ≡ self.old.held.seats }
        ensures answer { result ≡ draw_rules (view_of (state_of self.old)) seat place }
        ensures made { state_of self.new ≡ after result (state_of self.old) (draw seat place) }
    {
        if let Some(running) = self.running() {
            return Err(TableFault::DrawRunning(running));
        }
        if seat >= self.held.seats {
            return Err(TableFault::NoSeat(seat));
        }
        if place >= self.held.cards {
            return Err(TableFault::NoPlace(place));
        }
        if self.held.is_taken(place) {
            return Err(TableFault::PlaceTaken(place));
        }
        let entry = self.entry_number();
        let last_deck = usize::from(self.held.seats - 1) * usize::from(self.held.cards);
        let value = self.held.decks[last_deck + usize::from(place)];
        self.held
            .draws
            .push_reserved(DrawRecord::begin(seat, place, value));
        self.held.moves.push_reserved(Event::Draw { seat, place });
        Ok(entry)
    }

    pub(crate) fn enter_close(&mut self) -> Result<usize, TableFault>
        requires { closable self.old.held.phase ≡ true }
        ensures answer { result ≡ close_rules (view_of (state_of self.old)) }
        ensures made { state_of self.new ≡ after result (state_of self.old) close }
    {
        if let Some(running) = self.running() {
            return Err(TableFault::DrawRunning(running));
        }
        self.held.phase = self.held.phase.next();
        self.held.moves.push_reserved(Event::Close);
        Ok(usize::from(self.held.phase.number()))
    }

    pub(crate) fn enter_lock<C: Cipher>(
        &mut self,
        cipher: &C,
        seat: u8,
        deck: &[u32],
    ) -> Result<usize, TableFault>
        requires { self.old.held.phase ≡ Locking }
        ensures answer { result ≡ lock_rules (view_of (state_of self.old)) (C.Cipher.meaning cipher.now) seat deck.now }
        ensures made { state_of self.new ≡ after result (state_of self.old) (lock seat deck.now) }
    {
        if seat >= self.held.seats {
            return Err(TableFault::NoSeat(seat));
        }
        if seat != self.held.locked {
            return Err(TableFault::OtherTurn(self.held.locked));
        }
        if deck.len() != usize::from(self.held.cards) {
            return Err(TableFault::WrongLength(deck.len()));
        }
        check_deck(cipher, deck).map_err(|fault| SeatedFault { seat, fault })?;
        let entry = self.entry_number();
        // never refused, since the room was reserved when the table was started
        self.held.decks.extend_from_slice(deck)?;
        self.held.locked += 1;
        self.held.phase = if self.held.locked == self.held.seats {
            Phase::Dealing
        } else {
            Phase::Locking
        };
        self.held.moves.push_reserved(Event::Lock { seat });
        Ok(entry)
    }

    pub(crate) fn enter_disclose<C: Cipher>(
        &mut self,
        cipher: &C,
        seat: u8,
        key: u32,
        order: &[u8],
    ) -> Result<usize, TableFault>
        ensures answer { result ≡ disclose_rules (view_of (state_of self.old)) (C.Cipher.meaning cipher.now) seat key order.now }
        ensures made { state_of self.new ≡ after result (state_of self.old) (disclose seat key order.now) }
    {
        if seat >= self.held.seats {
            return Err(TableFault::NoSeat(seat));
        }
        if self.held.has_disclosed(seat) {
            return Err(TableFault::AlreadyDisclosed(seat));
        }
        if !cipher.is_lawful(key) {
            let fault = CipherFault::UnlawfulKey(key);
            return Err(TableFault::Cipher { seat, fault });
        }
        if order.len() != usize::from(self.held.cards) {
            return Err(TableFault::WrongLength(order.len()));
        }
        if !is_permutation(order) {
            return Err(TableFault::NotOrder);
        }
        let entry = self.entry_number();
        // never refused either
        self.held.orders.extend_from_slice(order)?;
        self.held
            .disclosures
            .push_reserved(Disclosure { seat, key });
        self.held.moves.push_reserved(Event::Disclose { seat, key });
        Ok(entry)
    }
}
