use rx_token::Token;
use std::alloc::AllocError;

/// What is read at the front of some tokens, and the tokens behind it.
#[derive(Drop)]
pub struct Read<'a, T> {
    pub value: T,
    pub rest: &'a [Token],
}

/// What a reader that takes memory gives: None where nothing of its form stands there. The error is want of memory.
pub type Reading<'a, T> = Result<Option<Read<'a, T>>, AllocError>;
