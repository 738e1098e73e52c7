ghost use Rattle.std.specs.Prelude.{◌≡◌};
ghost use Rattle.directory.specs.Directories.{files_at, directories_at};

use wire::Span;

// The sections of a Directory, in their order.
#[derive(Clone, Copy, Debug, PartialEq, Eq)]
pub enum Part {
    Files,
    Directories,
    Links,
}

// Where the directories and the links of a Directory begin. The files begin at 0, and each section ends where the next begins, the links at the Directory's end.
#[derive(Clone, Copy, Debug, PartialEq, Eq)]
pub struct Sections {
    pub directories: usize,
    pub links: usize,
}

impl Sections {
    // Where the files are.
    pub fn files_span(&self) -> Span
        ensures { result ≡ files_at self.now }
    {
        Span {
            start: 0,
            end: self.directories,
        }
    }

    // Where the directories are.
    pub fn directories_span(&self) -> Span
        ensures { result ≡ directories_at self.now }
    {
        Span {
            start: self.directories,
            end: self.links,
        }
    }
}

// What was read of a Directory up to some section: where the sections are, and where the last name of the latest is, an empty part at its start if it has none.
// No Option: no name is empty, and an empty one stands before every other, so that the first name needs no case of its own.
#[derive(Clone, Copy)]
pub struct SoFar {
    pub sections: Sections,
    pub last: Span,
}
