// The content hash over the masked header and four sections, and whether a debug hash fits its section.
#![tactic(auto)]

ghost use Rattle.std.specs.Prelude.{◌≡◌, ◌≤◌, length, take};
ghost use Rattle.base.specs.Answers.{as_it_is, got_from};
ghost use Rattle.base.specs.Digest.{digest_bytes};
ghost use Rattle.base.specs.Section.{place_in, bytes_of};
ghost use Rattle.format.specs.Parts.{header_size};
ghost use Rattle.header.specs.Answers.{directory_in, header_in};
ghost use Rattle.integrity.specs.Hashes.{computed_content_hash, content_hash_of, content_checked, debug_fits, is_hashable, all_hashable};
ghost use Rattle.integrity.specs.Laws.{Laws};

use base::digest::Digest;
pub use base::digest::{HASH_LEN, NO_HASH};
use base::error::ContainerError;
use base::section::{FILE_LIMIT, HEADER_SIZE, Part, Section, is_inside};
use blake3::{fed_with, finish, hash};
use hasher::Hasher;
use header::{FileHeader, SectionDirectory, masked};

// Whether a section can be hashed: it lies in the file behind the header, or its size is 0, at any offset.
#[tactic(auto, unfolding(crate::specs::Hashes::is_hashable))]
fn is_hashable(file: &[u8], section: Section) -> bool
    ensures { result ≡ is_hashable file.now (place_in section) }
{
    section.size == 0 || is_inside(file, section)
}

// Whether the four sections that the content hash covers can be hashed.
fn all_hashable(file: &[u8], sections: SectionDirectory) -> bool
    ensures { result ≡ all_hashable file.now (directory_in sections) }
{
    is_hashable(file, sections.task_section)
        && is_hashable(file, sections.type_section)
        && is_hashable(file, sections.const_section)
        && is_hashable(file, sections.code_section)
}

// A section's part of the file; empty if it does not lie in the file.
fn bytes_of(file: &[u8], section: Section) -> &[u8]
    ensures { result.now ≡ bytes_of file.now (place_in section) }
{
    Part {
        offset: section.offset as usize,
        size: section.size as usize,
    }
    .of(file)
}

// The header's bytes, of a file that is long enough.
fn header_of(file: &[u8]) -> [u8; HEADER_SIZE]
    requires { header_size ≤ length file.now }
    ensures { result ≡ take header_size file.now }
{
    let mut header = [0u8; HEADER_SIZE];
    header.copy_from_slice(&file[..HEADER_SIZE]);
    header
}

// The content hash over five parts: a header, which is masked, then the four sections; 10 if together they are over the hash's limit. The state is
// lent to each feeding.
pub fn content_hash_of(
    header: &[u8; HEADER_SIZE],
    task_table: &[u8],
    type_section: &[u8],
    const_section: &[u8],
    code_section: &[u8],
) -> Result<Digest, ContainerError>
    ensures { got_from digest_bytes result ≡ content_hash_of header.now task_table.now type_section.now const_section.now code_section.now }
{
    let image = masked(header);
    let state = fed_with(Hasher::new(), &image);
    let state = fed_with(state, task_table);
    let state = fed_with(state, type_section);
    let state = fed_with(state, const_section);
    finish(fed_with(state, code_section))
}

// The content hash of a file, with its sections at the places in `sections`, which are not trusted.
#[tactic(auto, using(crate::proofs::Strings::hash_long, crate::proofs::Strings::hash_short, crate::proofs::Strings::hash_outside))]
pub fn content_hash(file: &[u8], sections: SectionDirectory) -> Result<Digest, ContainerError>
    ensures { got_from digest_bytes result ≡ computed_content_hash file.now (directory_in sections) }
{
    if file.len() > FILE_LIMIT {
        return Err(ContainerError::TooLong);
    }
    if file.len() < HEADER_SIZE {
        return Err(ContainerError::ShortInput);
    }
    if !all_hashable(file, sections) {
        return Err(ContainerError::SectionSizeMismatch);
    }
    let header = header_of(file);
    content_hash_of(
        &header,
        bytes_of(file, sections.task_section),
        bytes_of(file, sections.type_section),
        bytes_of(file, sections.const_section),
        bytes_of(file, sections.code_section),
    )
}

// Whether the header's content hash is that of the file; an all-zero hash is not checked.
#[tactic(auto, unfolding(crate::specs::Hashes::content_checked))]
pub fn check_content_hash(file: &[u8], header: FileHeader) -> Result<(), ContainerError>
    ensures { got_from as_it_is result ≡ content_checked file.now (header_in header) }
{
    if header.content_hash.is_zero() {
        return Ok(());
    }
    if content_hash(file, header.sections)?.equals(header.content_hash) {
        return Ok(());
    }
    Err(ContainerError::ContentHashMismatch)
}

// Whether a debug hash fits its section; an all-zero hash fits any section.
#[tactic(auto, unfolding(crate::specs::Hashes::debug_fits))]
pub fn debug_hash_matches(debug_hash: Digest, section: &[u8]) -> bool
    ensures { result ≡ debug_fits (digest_bytes debug_hash) section.now }
{
    debug_hash.is_zero()
        || match hash(section) {
            Ok(d) => d.equals(debug_hash),
            Err(_) => false,
        }
}

// The claims of `specs/Laws.antt` hold. Empty body: the contract makes the checker prove them.
pub fn laws_hold()
    ensures { Laws }
{}
