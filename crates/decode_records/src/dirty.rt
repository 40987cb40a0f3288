// Memory for 1,024 positions and 32 rows, full of a pattern: that nothing of it comes through shows in the rows.
pub(crate) fn full_of<T: Copy, const N: usize>(x: T) -> [T; N] {
    [x; N]
}
