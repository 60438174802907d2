// What a line asks for.
#[derive(Clone, Copy)]
pub enum Call {
    // On a slot.
    Open(u64),
    Close(u64),
    Sequence(u64),
    Picture(u64),
    // A slot, and how many numbers are lent.
    Table(u64, u64),
    // A slot, and what it is fed.
    Feed(u64, Payload),
    Read(Payload),
    Explain(Payload),
    Help,
}

// Its kind, its stated size, and how many bytes there are.
#[derive(Clone, Copy)]
pub struct Payload {
    pub kind: u64,
    pub size: u64,
    pub count: usize,
}
