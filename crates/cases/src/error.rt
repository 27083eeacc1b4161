// What ends the cases of a file early.
use std::io;

#[derive(Debug, Drop)]
pub enum CaseError {
    // Something that had to stand there does not.
    Bad,
    // The system refused a read.
    Unread(io::Error),
    // The system refused a write.
    Unwritten(io::Error),
}

// What is printed can fail only by a write.
impl From<io::Error> for CaseError {
    fn from(error: io::Error) -> CaseError {
        CaseError::Unwritten(error)
    }
}
