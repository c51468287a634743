// How far an audit has come through the moves.
ghost use Rattle.std.specs.Prelude.{◌≡◌, ◌<◌};
ghost use Rattle.table.specs.Model.{state_of_record};
ghost use Rattle.verdict.specs.Forward.{progress_after};

use crate::hearing::Hearing;
use cipher::Cipher;
use table::record::Event;

#[derive(Clone, Copy, Default)]
pub(crate) struct Progress {
    pub(crate) entries: usize,
    pub(crate) locks: u16,
    // the chain value of the last draw
    pub(crate) value: u32,
}

impl Progress {
    // With one event more behind it. A close makes no entry.
    pub(crate) fn after<C: Cipher>(self, hearing: &Hearing<C>, event: Event) -> Progress
        requires entries { self.entries < 486 }
        requires locks { self.locks < 486 }
        ensures { result ≡ progress_after (C.Cipher.meaning hearing.now.cipher.now) (state_of_record hearing.now.record.now) self event }
    {
        let mut next = self;
        match event {
            Event::Close => return next,
            Event::Lock { .. } => next.locks += 1,
            Event::Draw { place, .. } => next.value = hearing.deck_value(self.locks, place),
            Event::Share { value, .. } => next.value = value,
            Event::Abandon | Event::Show { .. } | Event::Disclose { .. } => {}
        }
        next.entries += 1;
        next
    }
}
