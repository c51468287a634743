// A seat of either kind, so that one list can hold both.
use crate::generator::GeneratorSeat;
use crate::keyed::KeyedSeat;

#[derive(Drop)]
pub enum AnySeat {
    Keyed(KeyedSeat),
    Generator(GeneratorSeat),
}
