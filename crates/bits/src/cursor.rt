// Where a reading stands.
#[derive(Clone, Copy)]
pub struct Cursor {
    // The next bit's number.
    pub at: usize,
}
