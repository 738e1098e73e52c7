use crate::mark::Mark;

pub mod calls;

// Three types, each moved into the next, and not one with a parameter: what each takes and where it leads differ.

// A writer in its files part.
#[derive(Drop)]
pub struct Files {
    mark: Mark,
}

// A writer in its directories part.
#[derive(Drop)]
pub struct Directories {
    mark: Mark,
}

// A writer in its links part.
#[derive(Drop)]
pub struct Links {
    mark: Mark,
}
