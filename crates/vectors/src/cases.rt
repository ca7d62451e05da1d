// What a line asks for.

// A case: by its letters what is called, and how, and the bytes that it is called on.
#[derive(Clone, Copy)]
pub(crate) struct Case<'a> {
    pub letter: u8,
    pub call: u8,
    pub data: &'a [u8],
}
