// The arguments of the program: a word of its own, or the number of a level.
use std::env::FillError;
use std::rt::Env;
use std::str;

// Argument i, at the start of the buffer. One of more than 16 bytes is no word of ours, and comes out empty.
pub(crate) fn argument<'a>(rt: &impl Env, i: usize, buffer: &'a mut [u8; 16]) -> Option<&'a [u8]> {
    match rt.arg(i, buffer) {
        Ok(size) => Some(&buffer[..size]),
        Err(FillError::TooLong) => Some(&[]),
        Err(FillError::NotPresent) => None,
    }
}

// The level that an argument names: one to ten digits, of a number up to 4,294,967,295. Any number may be a level.
pub(crate) fn level_in(argument: &[u8]) -> Option<u32> {
    if 10 < argument.len() || !argument.iter().all(|byte| byte.is_ascii_digit()) {
        return None;
    }
    str::from_utf8(argument).ok()?.parse().ok()
}
