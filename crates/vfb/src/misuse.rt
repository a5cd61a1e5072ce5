/// What is wrong with the words of a call that ask for nothing.
#[derive(Clone, Copy)]
pub(crate) enum Misuse<'a> {
    /// They are those of no command.
    Words,
    /// A filter of this name is asked for, and can't be had.
    Filter(&'a str),
}
