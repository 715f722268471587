// What takes std two steps or more: a product of 32 bits each, a number cut to 32 bits, and lists read and written at a place that may be
// past their end. All of it is defined for all numbers, so that a test asks for no proof.

// The product of two numbers of 32 bits: 64 bits hold it.
pub fn product(a: u32, b: u32) -> u64 {
    u64::from(a) * u64::from(b)
}

// A number's low 32 bits.
pub fn low32(x: u64) -> u32 {
    (x & 4294967295) as u32
}

// What is at a place of a list; 0 past its end.
pub fn at<T: Copy + Default>(list: &[T], place: usize) -> T {
    list.get(place).copied().unwrap_or_default()
}

// Puts a value at a place of a list, if that is not past its end.
pub fn put<T: Copy>(list: &mut [T], place: usize, value: T) {
    if let Some(held) = list.get_mut(place) {
        *held = value;
    }
}

// The first of a list, so many; all of them if there are fewer.
pub fn first<T>(list: &[T], count: usize) -> &[T] {
    list.get(..count).unwrap_or(list)
}
