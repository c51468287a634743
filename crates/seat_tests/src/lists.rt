// A list that several tests share, and a check of a whole list.
use std::array;
use std::fmt::Debug;
use std::process::Abort;
use std::test::*;

// The numbers from 0 on, which after 255 come again.
pub fn numbers<const N: usize>() -> [u8; N] {
    array::from_fn(|i| (i & 255) as u8)
}

pub fn check_all<T: Copy + PartialEq + Debug + Drop>(
    rt: &impl Abort,
    list: &[T],
    x: T,
) -> Result<(), Fail> {
    for y in list {
        assert_eq!(rt; *y, x);
    }
    Ok(())
}
