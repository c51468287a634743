// The table: a record that only its calls can change.
ghost use Rattle.std.specs.Prelude.{◌≡◌, ◌+◌, ◌*◌, ◌≤◌, true, vec_len, vec_capacity};
ghost use Rattle.table.specs.View.{closes};
ghost use Rattle.table.specs.Sound.{in_step, fair, different, draw_moves, most_moves};

use crate::record::Record;

#[derive(Drop)]
pub struct Table {
    pub(crate) held: Record,
    ghost seats_least: { 2 ≤ held.seats },
    ghost seats_most: { held.seats ≤ 8 },
    ghost cards_least: { 2 ≤ held.cards },
    ghost cards_most: { held.cards ≤ 52 },
    ghost step: { in_step held.phase held.locked held.seats ≡ true },
    ghost decks_long: { vec_len held.decks ≡ held.locked * held.cards },
    ghost orders_long: { vec_len held.orders ≡ vec_len held.disclosures * held.cards },
    ghost draws_fair: { fair held.seats held.draws.items ≡ true },
    ghost places_different: { different (λ d. d.place) held.cards held.draws.items ≡ true },
    ghost disclosures_different: { different (λ d. d.seat) held.seats held.disclosures.items ≡ true },
    ghost moves_long: { vec_len held.moves ≡ held.locked + (draw_moves held.draws.items + (vec_len held.disclosures + closes held.phase)) },
    // the room for a whole hand
    ghost decks_room: { held.seats * held.cards ≤ vec_capacity held.decks },
    ghost orders_room: { held.seats * held.cards ≤ vec_capacity held.orders },
    ghost draws_room: { held.cards ≤ vec_capacity held.draws },
    ghost disclosures_room: { held.seats ≤ vec_capacity held.disclosures },
    ghost moves_room: { most_moves held.seats held.cards ≤ vec_capacity held.moves },
}
