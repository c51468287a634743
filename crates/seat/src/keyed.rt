// A seat that holds a key and an order.
ghost use Rattle.std.specs.Prelude.{◌≡◌, ◌≤◌, true, vec_len};
ghost use Rattle.permutation.specs.Permutation.{permutes};

// The order is a permutation of 2 to 52 places.
#[derive(Drop)]
pub struct KeyedSeat {
    pub(crate) key: u32,
    pub(crate) order: Vec<u8>,
    ghost several: { 2 ≤ vec_len order },
    ghost few: { vec_len order ≤ 52 },
    ghost ordered: { permutes order.items ≡ true },
}
