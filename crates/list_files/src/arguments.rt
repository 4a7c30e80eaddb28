// The arguments that a program was started with, by their number. Its own name is the first.
use std::env::{Env, FillError};

pub fn argument_count(rt: &impl Env) -> usize {
    let mut first = [0u8; 1];
    (0..usize::MAX)
        .find(|i| matches!(rt.arg(*i, &mut first), Err(FillError::NotPresent)))
        .unwrap_or(usize::MAX)
}
