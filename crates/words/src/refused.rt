// A refusal with its place.

// Why bytes are refused, and the offset of the byte at which they are.
#[derive(Clone, Copy, PartialEq, Eq)]
pub struct Refused<R> {
    pub refusal: R,
    pub offset: usize,
}
