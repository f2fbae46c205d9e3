// A section's part of the file, and other parts of it.
ghost use Rattle.std.specs.Prelude.{◌≡◌};
ghost use Rattle.format.specs.Parts.{is_inside};
ghost use Rattle.base.specs.Answers.{got_from};
ghost use Rattle.base.specs.Cut.{cut_in};
ghost use Rattle.base.specs.Section.{place_in, part_in, bytes_of, PartWithin, section_part, section_cut, bytes_or};

use crate::cut::Cut;
use crate::error::ContainerError;

// The library's limit on a file.
pub const FILE_LIMIT: usize = 65536;

// The programs' own limit on a file, whatever the library's is.
pub const PROGRAM_LIMIT: usize = 65536;

// The size of the header.
pub const HEADER_SIZE: usize = 256;

// Where the header says a section lies; not checked.
#[derive(Clone, Copy)]
pub struct Section {
    pub offset: u32,
    pub size: u32,
}

// A part of the file: `size` bytes from `offset` on.
#[derive(Clone, Copy, Debug, PartialEq, Eq)]
pub struct Part {
    pub offset: usize,
    pub size: usize,
}

// Whether a section lies in the file behind the header, also at size 0.
#[tactic(auto, unfolding(format::specs::Parts::is_inside))]
pub fn is_inside(file: &[u8], section: Section) -> bool
    ensures { result ≡ is_inside file.now (place_in section) }
{
    let start = section.offset as usize;
    let end = start + section.size as usize;
    HEADER_SIZE <= start && end <= file.len()
}

// The part of the file that a section occupies. The equation implies that it lies in the file; callers slice by that.
#[tactic(auto, using(crate::proofs::Sections::known_inside), unfolding(crate::specs::Section::section_part))]
pub fn section_part(file: &[u8], section: Section) -> Result<Part, ContainerError>
    ensures { (got_from part_in result ≡ section_part file.now (place_in section)) × PartWithin file.now result }
{
    if file.len() > FILE_LIMIT {
        return Err(ContainerError::TooLong);
    }
    if is_inside(file, section) {
        return Ok(Part {
            offset: section.offset as usize,
            size: section.size as usize,
        });
    }
    Err(ContainerError::SectionSizeMismatch)
}

// The same with its bytes.
pub fn section_cut(file: &[u8], section: Section) -> Result<Cut, ContainerError>
    ensures { got_from cut_in result ≡ section_cut file.now (place_in section) }
{
    let p = section_part(file, section)?;
    Ok(Cut {
        bytes: &file[p.offset..p.offset + p.size],
        offset: p.offset,
    })
}

// The bytes of an answered part of the file; none where the answer is a refusal.
pub fn part_bytes(file: &[u8], answer: Result<Part, ContainerError>) -> &[u8]
    requires { PartWithin file.now answer }
    ensures { result.now ≡ bytes_or file.now (got_from part_in answer) }
{
    match answer {
        Ok(p) => &file[p.offset..p.offset + p.size],
        Err(_) => &[],
    }
}

impl Part {
    // That part of the file; empty if it does not lie in the file.
    #[tactic(auto, unfolding(crate::specs::Section::bytes_of))]
    pub fn of(self, file: &[u8]) -> &[u8]
        ensures { result.now ≡ bytes_of file.now (part_in self) }
    {
        let end = self.offset.saturating_add(self.size);
        file.get(self.offset..end).unwrap_or(&[])
    }
}
