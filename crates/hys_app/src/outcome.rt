use crate::Status;
use hys_base::{List, Text};

/// A file to be put.
#[derive(Drop)]
pub struct NewFile {
    pub name: Text,
    pub bytes: List<u8>,
}

/// What a command comes to once its files are read and judged: the status that it ends with, the
/// line to be printed, and the file to be put before that.
#[derive(Drop)]
pub struct Outcome {
    pub status: Status,
    pub line: List<u8>,
    pub file: Option<NewFile>,
}
