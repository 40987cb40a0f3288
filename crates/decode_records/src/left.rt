// How much of what a block leaves behind is not 0: a space and the number.
use crate::print::print_byte;

// A `for`, and no chain that counts: so it runs in vector instructions.
fn count_left<T: PartialEq + Default + Drop>(s: &[T]) -> usize {
    let zero = T::default();
    let mut count = 0;
    for x in s {
        if *x != zero {
            count += 1;
        }
    }
    count
}

pub(crate) fn print_left<T: PartialEq + Default + Drop>(s: &[T], from: usize) {
    let count = count_left(s.get(from..).unwrap_or(&[]));
    print_byte(b' ');
    io::print_decimal(1, count as u64);
}
