// What a record tells of itself.
ghost use Rattle.std.specs.Prelude.{◌≡◌, false, MatchOption};
ghost use Rattle.table.specs.State.{running, Runs};
ghost use Rattle.table.specs.View.{taken, has_disclosed};
ghost use Rattle.table.specs.Model.{state_of};

use crate::record::{End, Record};
use crate::table::Table;

impl Table {
    // The record, for reading.
    pub fn record(&self) -> &Record
        ensures { result.now ≡ self.now.held }
    {
        &self.held
    }

    // The number of the draw that is running: only the last can be.
    pub(crate) fn running(&self) -> Option<u8>
        ensures { MatchOption result (running (state_of self.now) ≡ false) (λ i. Runs (state_of self.now) i) }
    {
        let last = self.held.draws.last()?;
        (last.end == End::Running).then_some((self.held.draws.len() - 1) as u8)
    }
}

impl Record {
    // Whether a draw, running or ended, took the place.
    pub(crate) fn is_taken(&self, place: u8) -> bool
        ensures { result ≡ taken self.now.draws.items place }
    {
        self.draws.iter().any(|draw| draw.place == place)
    }

    pub(crate) fn has_disclosed(&self, seat: u8) -> bool
        ensures { result ≡ has_disclosed self.now.disclosures.items seat }
    {
        self.disclosures
            .iter()
            .any(|disclosure| disclosure.seat == seat)
    }
}
