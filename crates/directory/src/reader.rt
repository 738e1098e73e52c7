ghost use Rattle.std.specs.Prelude.{◌≡◌, ◌≤◌, length};
ghost use Rattle.wire.specs.Refusals.{reported};
ghost use Rattle.directory.specs.Canonical.{OnlyCanonicalIsAccepted, CanonicalIsReadBack, OneEncodingOneDirectory};
ghost use Rattle.directory.specs.Directories.{up_to, part_of, directory_of, answered, so_far_of, sections_of};
ghost use Rattle.directory.specs.Steps.{reached_of};

use crate::part::{Part, Sections, SoFar};
use crate::section::{SectionEnd, read_section};
use nodes::{DirectoryNode, FileNode, LinkNode};
use wire::{ReadCase, ReadFault};

// The largest Directory, in bytes.
const MAX_BYTES: usize = 16_777_216;

// What was read up to some section: where the sections are, and of the latest the last name and the end.
#[derive(Clone, Copy)]
pub struct Reached {
    pub sections: Sections,
    pub latest: SectionEnd,
}

// The sections up to one of them. Each is of another kind of node, so that closures for the three would be no plainer.
fn read_up_to(bytes: &[u8], part: Part) -> Result<Reached, ReadFault>
    requires { length bytes.now ≤ 16777216 }
    ensures { reported result ≡ answered reached_of (up_to part bytes.now) }
{
    let nothing = Sections {
        directories: 0,
        links: 0,
    };
    let files = read_section::<FileNode>(bytes, 0, nothing)?;
    let sections = Sections {
        directories: files.end,
        links: files.end,
    };
    if part == Part::Files {
        return Ok(Reached {
            sections,
            latest: files,
        });
    }
    let directories = read_section::<DirectoryNode>(bytes, files.end, sections)?;
    let sections = Sections {
        links: directories.end,
        ..sections
    };
    if part == Part::Directories {
        return Ok(Reached {
            sections,
            latest: directories,
        });
    }
    let links = read_section::<LinkNode>(bytes, directories.end, sections)?;
    Ok(Reached {
        sections,
        latest: links,
    })
}

// Reads a Directory that goes no further than one of its sections.
pub fn read_part(bytes: &[u8], part: Part) -> Result<SoFar, ReadFault>
    ensures { reported result ≡ answered so_far_of (part_of part bytes.now) }
{
    if bytes.len() > MAX_BYTES {
        return Err(ReadFault {
            case: ReadCase::Length,
            place: 0,
        });
    }
    let Reached { sections, latest } = read_up_to(bytes, part)?;
    let SectionEnd { last, end } = latest;
    if end < bytes.len() {
        return Err(ReadFault {
            case: ReadCase::Tag,
            place: end,
        });
    }
    Ok(SoFar { sections, last })
}

// Reads a Directory: where its sections are.
pub fn read_directory(bytes: &[u8]) -> Result<Sections, ReadFault>
    ensures value { reported result ≡ answered sections_of (directory_of bytes.now) }
    ensures accepted { OnlyCanonicalIsAccepted }
    ensures returned { CanonicalIsReadBack }
    ensures single { OneEncodingOneDirectory }
{
    read_part(bytes, Part::Links).map(|so_far| so_far.sections)
}
