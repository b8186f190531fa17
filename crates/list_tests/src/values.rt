//! Values of items that are made from numbers.

// Makes values of numbers, and reads them. It is a type beside the values' own, since code that
// puts no bound but `Drop` on them costs much less to prove.
pub trait Values<T: Drop> {
    fn value_of(number: u32) -> T;

    fn number_of(value: &T) -> u32;

    // Writes a number, and returns the former one.
    fn write(value: &mut T, number: u32) -> u32;
}

// Values that are numbers.
pub struct Numbers;

impl Values<u32> for Numbers {
    fn value_of(number: u32) -> u32 {
        number
    }

    fn number_of(value: &u32) -> u32 {
        *value
    }

    fn write(value: &mut u32, number: u32) -> u32 {
        let former = *value;
        *value = number;
        former
    }
}

// Returns the number of a value, if there is one.
pub fn number_in<T: Drop, V: Values<T>>(value: Option<T>) -> Option<u32> {
    match value {
        Some(value) => Some(V::number_of(&value)),
        None => None,
    }
}

// Returns whether there is a value of this number.
pub fn has_number<T: Drop, V: Values<T>>(value: Option<&T>, number: u32) -> bool {
    match value {
        Some(value) => V::number_of(value) == number,
        None => false,
    }
}

// Writes a number into a value, if there is one, and returns the former number.
pub fn write_in<T: Drop, V: Values<T>>(value: Option<&mut T>, number: u32) -> Option<u32> {
    match value {
        Some(value) => Some(V::write(value, number)),
        None => None,
    }
}
