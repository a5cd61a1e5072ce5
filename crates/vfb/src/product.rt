/// A file that a command writes.
#[derive(Drop)]
pub(crate) struct File<'a> {
    /// Its path.
    pub(crate) path: &'a str,
    /// What is appended to it, piece by piece.
    pub(crate) pieces: Vec<Vec<u8>>,
}

/// What a command makes, all of it in memory: its files are written in their order, and then its text is said.
#[derive(Drop)]
pub(crate) struct Product<'a> {
    /// The files.
    pub(crate) files: Vec<File<'a>>,
    /// The text.
    pub(crate) text: String,
}
