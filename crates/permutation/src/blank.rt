// What stands in a place that holds nothing.
ghost use Rattle.std.specs.Prelude.{◌≡◌};

// No locked value is 0.
const NO_VALUE: u32 = 0;

// No place of a deck is 255.
const NO_PLACE: u8 = 255;

pub trait Blank: Sized {
    ghost blank: { Self };

    fn blank() -> Self
        ensures { result ≡ blank };
}

impl Blank for u32 {
    ghost blank = { 0 };

    fn blank() -> u32 {
        NO_VALUE
    }
}

impl Blank for u8 {
    ghost blank = { 255 };

    fn blank() -> u8 {
        NO_PLACE
    }
}
