ghost use Rattle.std.specs.Prelude.{◌≡◌};
ghost use Rattle.directory.specs.declared.part.Part.TheVariants.{Directories as DirectoriesPart, Links as LinksPart};
ghost use Rattle.writer.specs.Faults.{answer};
ghost use Rattle.writer.specs.Runs.{NodesTakenAreReadBack, NodesReadGiveTheSameBytes};
ghost use Rattle.writer.specs.States.{started, on_to, ended, adding};
ghost use Rattle.writer.specs.Views.{files_state, directories_state, links_state, begun, finished, GivenBack, file_bytes, directory_bytes, link_bytes};

use super::{Directories, Files, Links};
use crate::fault::{LENGTH, WriterFault};
use crate::mark::Mark;
use directory::Part;
use nodes::{DirectoryNode, FileNode, NewNode};

// The longest buffer, in bytes.
const MAX_BYTES: usize = 16_777_216;

// The buffer is lent at each call, and so is part of no struct.
impl Files {
    // A writer for a buffer, which is lent at each call.
    pub fn start(buffer: &[u8]) -> Result<Files, WriterFault>
        ensures { begun result ≡ started buffer.now }
    {
        let long = buffer.len();
        if long > MAX_BYTES {
            return Err(LENGTH);
        }
        Ok(Files {
            mark: Mark { used: 0, long },
        })
    }

    // Adds a file.
    pub fn add(
        &mut self,
        buffer: &mut [u8],
        name: &[u8],
        node: &FileNode,
    ) -> Result<(), WriterFault>
        ensures answer { answer result ≡ (adding (files_state self.old) buffer.old (file_bytes name.now node.now)).answer }
        ensures state { files_state self.new ≡ (adding (files_state self.old) buffer.old (file_bytes name.now node.now)).state }
        ensures buffer { buffer.new ≡ (adding (files_state self.old) buffer.old (file_bytes name.now node.now)).buffer }
    {
        let node = NewNode {
            name,
            rest: node,
            text: &[],
        };
        self.mark.add(buffer, Part::Files, &node)
    }

    // Goes on to the directories.
    pub fn directories(self) -> Directories
        ensures { directories_state result ≡ on_to DirectoriesPart (files_state self) }
    {
        Directories { mark: self.mark }
    }
}

impl Directories {
    // Adds a directory. As a file is added, with its own part and kind: the body is one call.
    pub fn add(
        &mut self,
        buffer: &mut [u8],
        name: &[u8],
        node: &DirectoryNode,
    ) -> Result<(), WriterFault>
        ensures answer { answer result ≡ (adding (directories_state self.old) buffer.old (directory_bytes name.now node.now)).answer }
        ensures state { directories_state self.new ≡ (adding (directories_state self.old) buffer.old (directory_bytes name.now node.now)).state }
        ensures buffer { buffer.new ≡ (adding (directories_state self.old) buffer.old (directory_bytes name.now node.now)).buffer }
    {
        let node = NewNode {
            name,
            rest: node,
            text: &[],
        };
        self.mark.add(buffer, Part::Directories, &node)
    }

    // Goes on to the links.
    pub fn links(self) -> Links
        ensures { links_state result ≡ on_to LinksPart (directories_state self) }
    {
        Links { mark: self.mark }
    }
}

impl Links {
    // Adds a link.
    pub fn add(&mut self, buffer: &mut [u8], name: &[u8], target: &[u8]) -> Result<(), WriterFault>
        ensures answer { answer result ≡ (adding (links_state self.old) buffer.old (link_bytes name.now target.now)).answer }
        ensures state { links_state self.new ≡ (adding (links_state self.old) buffer.old (link_bytes name.now target.now)).state }
        ensures buffer { buffer.new ≡ (adding (links_state self.old) buffer.old (link_bytes name.now target.now)).buffer }
    {
        self.mark.add_link(buffer, name, target)
    }

    // Ends the Directory, and answers how many bytes it has. A refusal gives the writer back.
    pub fn end(self, buffer: &[u8]) -> Result<usize, (Links, WriterFault)>
        ensures answer { finished result ≡ ended (links_state self) buffer.now }
        ensures back { GivenBack self result }
        ensures taken { NodesTakenAreReadBack }
        ensures same { NodesReadGiveTheSameBytes }
    {
        let Mark { used, .. } = self.mark;
        self.mark
            .check(buffer, Part::Links)
            .map(|_| used)
            .map_err(|fault| (self, fault))
    }
}
