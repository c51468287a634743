// A seat whose key and order come from one start.
ghost use Rattle.std.specs.Prelude.{◌≡◌, true};
ghost use Rattle.seat.specs.Generator.{fit};

// The start is from 1 to 2147483646, and the size from 2 to 52.
#[derive(Clone, Copy)]
pub struct GeneratorSeat {
    pub(crate) start: u32,
    pub(crate) size: u8,
    ghost fits: { fit start size ≡ true },
}
