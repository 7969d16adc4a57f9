// What a proved call answered, as the lists tell it.
use rules::Refusal;

// The number of an answer: a refusal's, or 0.
pub fn number_of<T>(answer: &Result<T, Refusal>) -> u8 {
    match answer {
        Ok(_) => 0,
        Err(refusal) => u8::from(*refusal),
    }
}

// The same, or 255 where there is no such call.
pub fn number_if<T>(answer: &Option<Result<T, Refusal>>) -> u8 {
    match answer {
        Some(answer) => number_of(answer),
        None => 255,
    }
}
