//! What a case is.

/// A call of the program: its words, what it is lent, and what it is to write and answer.
#[derive(Drop)]
pub(crate) struct Case {
    /// What the case shows.
    pub(crate) name: String,
    /// The words of the call, without the program's name.
    pub(crate) words: Vec<String>,
    /// The files that it may read, by name.
    pub(crate) files: Vec<(String, Vec<u8>)>,
    /// Which reads fail, from 1.
    pub(crate) failing_reads: Vec<u32>,
    /// Which puts fail, from 1, each with how many bytes of its piece are taken first.
    pub(crate) failing_puts: Vec<(u32, u32)>,
    /// What is to be written.
    pub(crate) out: Vec<u8>,
    /// How the call is to end.
    pub(crate) status: u8,
}
