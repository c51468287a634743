// How a draw begins, and what a move makes of one that is lent to it.
ghost use Rattle.std.specs.Prelude.{◌≡◌, ◌<◌};
ghost use Rattle.table.specs.State.{begun, shared_by, abandoned, revealed};

use crate::record::{DrawRecord, End};

impl DrawRecord {
    // A draw of a place that holds the value.
    pub(crate) fn begin(seat: u8, place: u8, value: u32) -> DrawRecord
        ensures { result ≡ begun seat place value }
    {
        DrawRecord {
            seat,
            place,
            shared: [false; 8],
            shares: 0,
            value,
            end: End::Running,
            shown: false,
        }
    }

    // One share more: share number S - 1 makes the draw dealt.
    pub(crate) fn add_share(&mut self, seats: u8, seat: u8, value: u32)
        requires seated { seat < 8 }
        requires shares { self.old.shares < 8 }
        ensures { self.new ≡ shared_by seats seat value self.old }
    {
        self.shared[usize::from(seat)] = true;
        self.end = if self.shares + 2 == seats {
            End::Dealt
        } else {
            End::Running
        };
        self.shares += 1;
        self.value = value;
    }

    pub(crate) fn abandon(&mut self)
        ensures { self.new ≡ abandoned self.old }
    {
        self.end = End::Abandoned;
    }

    pub(crate) fn reveal(&mut self)
        ensures { self.new ≡ revealed self.old }
    {
        self.shown = true;
    }
}
