// Source files: a path and a 32-byte hash.
ghost use Rattle.format.specs.Parts.{Place, by_place};
ghost use Rattle.format.specs.Debug.{SourceFile, source_file};
ghost use Rattle.format.proofs.Leaves.{stays-file};
ghost use Rattle.debug_text.specs.Answers.{debug_fault_of};
ghost use Rattle.debug_entries.specs.Answers.{source_file_in};

use base::cut::Cut;
use base::digest::{Digest, digest_at};
use base::entry::Entry;
use base::section::Part;
use debug_text::{DebugFault, read_path};

pub const SOURCE_FILE_HASH_LEN: usize = 32;

#[derive(Clone, Copy)]
pub struct SourceFileEntry {
    pub path: Part,
    pub content_hash: Digest,
}

impl Entry for SourceFileEntry {
    type Error = DebugFault;

    ghost Kept = { SourceFile Place };

    ghost kept = { source_file_in };

    ghost told = { debug_fault_of };

    ghost reader = { λ p. source_file (by_place p) };

    ghost stays = { λ p s. stays-file (by_place p) s };

    #[tactic(auto, using(crate::proofs::Entries::file_err, crate::proofs::Entries::file_short, crate::proofs::Entries::file_read))]
    fn read(cut: Cut, at: usize) -> Result<(Self, usize), DebugFault> {
        let (path, behind) = read_path(cut, at)?;
        if cut.left(behind) < SOURCE_FILE_HASH_LEN {
            return Err(DebugFault::Short);
        }
        let content_hash = digest_at(cut.bytes, behind);
        Ok((
            SourceFileEntry { path, content_hash },
            behind + SOURCE_FILE_HASH_LEN,
        ))
    }
}
