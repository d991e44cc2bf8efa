/// How much of a file was fetched.
#[derive(Clone, Copy, PartialEq, Eq, Debug)]
pub enum Fetched {
    /// All of its bytes.
    Whole,
    /// One byte more than the limit, of a file that is longer than that.
    TooLong,
}

/// Why a file was not fetched. Of either, a start of the file may have been appended.
#[derive(Clone, Copy, PartialEq, Eq, Debug)]
pub enum FetchFault {
    /// There is no such file, or a read failed.
    Failed,
    /// There was no memory for the bytes.
    OutOfMemory,
}
