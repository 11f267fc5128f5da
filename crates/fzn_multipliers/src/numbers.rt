// Numbers that are kept within 64 bits.

/// The quotient by a number above 0.
pub fn divided(number: i64, by: i64) -> i64 {
    if by < 1 {
        return 0;
    }
    number / by
}

/// The number, or where it has more than 64 bits the nearest that has no more.
pub fn narrowed(number: i128) -> i64 {
    match i64::try_from(number) {
        Ok(number) => number,
        Err(_) if number < 0 => i64::MIN,
        Err(_) => i64::MAX,
    }
}
