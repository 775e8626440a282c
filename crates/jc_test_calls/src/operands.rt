//! Operands, as words have them.

/// What stands before the first colon, and the number after it.
pub fn numbered(operand: &str) -> Option<(&str, u64)> {
    let (name, digits) = operand.split_once(':')?;
    let number = number_in(digits)?;
    Some((name, number))
}

/// The number that digits are.
pub fn number_in(digits: &str) -> Option<u64> {
    match digits.parse::<u64>() {
        Ok(number) => Some(number),
        Err(_) => None,
    }
}
