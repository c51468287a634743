// A table's record at its audit, and the first entry in it that is not honest.
ghost use Rattle.std.specs.Prelude.{◌≡◌};
ghost use Rattle.table.specs.Model.{state_of_record};
ghost use Rattle.verdict.specs.Tables.{told_of, log_of};
ghost use Rattle.verdict.specs.Honesty.{verdict};
ghost use Rattle.verdict.specs.Forward.{Bounded, finding_after};

use crate::progress::Progress;
use crate::{Finding, Kind};
use cipher::Cipher;
use table::record::{Event, Record};

// A record, and the cipher that its entries are judged by.
#[derive(Drop)]
pub(crate) struct Hearing<'a, C> {
    pub(crate) record: &'a Record,
    pub(crate) cipher: &'a C,
    ghost bounded: { Bounded record.now },
}

impl<C: Cipher> Hearing<'_, C> {
    // What is found at an event. A share of a draw that was later abandoned is looked at too.
    fn finding(&self, so_far: Progress, event: Event) -> Option<Finding>
        ensures { result ≡ finding_after (C.Cipher.meaning self.now.cipher.now) (state_of_record self.now.record.now) so_far event }
    {
        let (honest, seat, kind) = match event {
            Event::Lock { seat } => (self.honest_lock(so_far.locks, seat), seat, Kind::Lock),
            Event::Share { seat, value } => {
                let honest = self.honest_share(seat, so_far.value, value);
                (honest, seat, Kind::Share)
            }
            Event::Show { draw, card } => {
                let (seat, value) = self.drawn(draw);
                let honest = self.honest_show(seat, value, card);
                (honest, seat, Kind::Show)
            }
            Event::Draw { .. } | Event::Abandon | Event::Close | Event::Disclose { .. } => {
                return None;
            }
        };
        let entry = so_far.entries;
        (!honest).then_some(Finding { entry, seat, kind })
    }

    pub(crate) fn first_finding(&self) -> Option<Finding>
        ensures { result ≡ verdict (C.Cipher.meaning self.now.cipher.now) self.now.record.now.cards (told_of (state_of_record self.now.record.now)) (log_of (state_of_record self.now.record.now)) }
    {
        let mut so_far = Progress::default();
        for event in self.record.moves.iter() {
            if let Some(found) = self.finding(so_far, *event) {
                return Some(found);
            }
            so_far = so_far.after(self, *event);
        }
        None
    }
}
