// A ring over a memory.
use crate::span::Span;

mod calls;
pub mod laws;
mod loans;

// It holds the memory for as long as it is used; the span is handed back to its owner by `span`.
#[derive(Drop)]
pub struct Ring<'a, T> {
    memory: &'a mut [T],
    span: Span,
}
