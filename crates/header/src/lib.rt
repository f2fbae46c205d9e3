// The header: 256 bytes at fixed places.
#![tactic(auto)]

ghost use Rattle.std.specs.Prelude.{◌≡◌, ◌+◌, ◌≤◌, length};
ghost use Rattle.format.specs.Parts.{header_size, part};
ghost use Rattle.format.specs.Header.{place_at, directory_of, runtime_of, header_of, types_flag, without_debug_bit};
ghost use Rattle.format.specs.Integrity.{masked_header};
ghost use Rattle.base.specs.Answers.{got_from};
ghost use Rattle.base.specs.Section.{place_in};
ghost use Rattle.header.specs.Answers.{directory_in, runtime_in, reserved_bytes, header_in};

use base::digest::{Digest, digest_at};
use base::error::ContainerError;
pub use base::section::HEADER_SIZE;
use base::section::Section;
use reading::{u8_at, u16_at, u32_at};

// "IPLC", last letter first.
pub const MAGIC: u32 = 0x49504C43;

pub const FORMAT_VERSION: u16 = 4;

// Variables 0 and 1 are the up time, which the machine writes before each scan.
pub const FLAG_HAS_SYSTEM_UPTIME: u8 = 0x01;

// There is a debug section.
pub const FLAG_HAS_DEBUG_SECTION: u8 = 0x02;

// There is a type section.
pub const FLAG_HAS_TYPE_SECTION: u8 = 0x04;

// The place of `flags`.
pub const FLAGS_OFFSET: usize = 7;

// Where `content_hash` starts and ends.
pub const CONTENT_HASH_START: usize = 8;

pub const CONTENT_HASH_END: usize = 40;

// Where `debug_hash` starts and ends.
pub const DEBUG_HASH_START: usize = 72;

pub const DEBUG_HASH_END: usize = 104;

// Where the section directory starts and ends.
pub const SECTION_DIRECTORY_START: usize = 136;

pub const SECTION_DIRECTORY_END: usize = 192;

#[derive(Clone, Copy)]
pub struct FileHeader {
    // Identification: bytes 0 to 7
    pub magic: u32,
    pub format_version: u16,
    pub profile: u8,
    pub flags: u8,
    // Hashes: bytes 8 to 135
    pub content_hash: Digest,
    pub reserved_hash_slot: Digest,
    pub debug_hash: Digest,
    pub layout_hash: Digest,
    // Section directory: bytes 136 to 191
    pub sections: SectionDirectory,
    // Runtime parameters: bytes 192 to 217
    pub runtime: RuntimeParameters,
    // Bytes 218 to 255
    pub reserved: Reserved,
}

// Where the sections lie.
#[derive(Clone, Copy)]
pub struct SectionDirectory {
    pub sig_section: Section,
    pub debug_sig: Section,
    pub type_section: Section,
    pub task_section: Section,
    pub const_section: Section,
    pub code_section: Section,
    pub debug_section: Section,
}

#[derive(Clone, Copy)]
pub struct RuntimeParameters {
    pub max_stack_depth: u16,
    pub max_call_depth: u16,
    pub num_variables: u16,
    pub data_region_bytes: u32,
    pub num_temp_bufs: u16,
    pub max_temp_buf_bytes: u32,
    pub num_functions: u16,
    pub num_fb_types: u16,
    pub input_image_bytes: u16,
    pub output_image_bytes: u16,
    pub memory_image_bytes: u16,
}

// The reserved bytes.
// Kept: a type beside `Digest`, which has methods; a const parameter for both would be no plainer.
#[derive(Clone, Copy)]
pub struct Reserved(pub [u8; 38]);

// The pair of offset and size at a place.
fn section_at(file: &[u8], at: usize) -> Section
    requires { at + 8 ≤ length file.now }
    ensures { place_in result ≡ place_at file.now at }
{
    Section {
        offset: u32_at(file, at),
        size: u32_at(file, at + 4),
    }
}

// Kept: seven pairs at document 01's places. A table of the places would repeat them apart from the fields' names.
#[tactic(auto, unfolding(format::specs::Header::directory_of))]
fn directory_at(file: &[u8]) -> SectionDirectory
    requires { header_size ≤ length file.now }
    ensures { directory_in result ≡ directory_of file.now }
{
    SectionDirectory {
        sig_section: section_at(file, 136),
        debug_sig: section_at(file, 144),
        type_section: section_at(file, 152),
        task_section: section_at(file, 160),
        const_section: section_at(file, 168),
        code_section: section_at(file, 176),
        debug_section: section_at(file, 184),
    }
}

// Kept: numbers of two widths at document 01's places. A table of the places would repeat them apart from the fields' names.
#[tactic(auto, unfolding(format::specs::Header::runtime_of))]
fn runtime_at(file: &[u8]) -> RuntimeParameters
    requires { header_size ≤ length file.now }
    ensures { runtime_in result ≡ runtime_of file.now }
{
    RuntimeParameters {
        max_stack_depth: u16_at(file, 192),
        max_call_depth: u16_at(file, 194),
        num_variables: u16_at(file, 196),
        data_region_bytes: u32_at(file, 198),
        num_temp_bufs: u16_at(file, 202),
        max_temp_buf_bytes: u32_at(file, 204),
        num_functions: u16_at(file, 208),
        num_fb_types: u16_at(file, 210),
        input_image_bytes: u16_at(file, 212),
        output_image_bytes: u16_at(file, 214),
        memory_image_bytes: u16_at(file, 216),
    }
}

fn reserved_at(file: &[u8]) -> Reserved
    requires { header_size ≤ length file.now }
    ensures { reserved_bytes result ≡ part 218 38 file.now }
{
    let mut bytes = [0u8; 38];
    bytes.copy_from_slice(&file[218..HEADER_SIZE]);
    Reserved(bytes)
}

// The header of a file.
#[tactic(auto, unfolding(format::specs::Header::header_of))]
pub fn from_bytes(file: &[u8]) -> Result<FileHeader, ContainerError>
    ensures { got_from header_in result ≡ header_of file.now }
{
    if file.len() < HEADER_SIZE {
        return Err(ContainerError::ShortInput);
    }
    let magic = u32_at(file, 0);
    let format_version = u16_at(file, 4);
    if magic != MAGIC {
        return Err(ContainerError::InvalidMagic);
    }
    if format_version != FORMAT_VERSION {
        return Err(ContainerError::UnsupportedVersion);
    }
    Ok(FileHeader {
        magic,
        format_version,
        profile: u8_at(file, 6),
        flags: u8_at(file, FLAGS_OFFSET),
        content_hash: digest_at(file, CONTENT_HASH_START),
        reserved_hash_slot: digest_at(file, 40),
        debug_hash: digest_at(file, DEBUG_HASH_START),
        layout_hash: digest_at(file, 104),
        sections: directory_at(file),
        runtime: runtime_at(file),
        reserved: reserved_at(file),
    })
}

// Whether the flags announce a type section.
pub fn has_types(flags: u8) -> bool
    ensures { result ≡ types_flag flags }
{
    flags & FLAG_HAS_TYPE_SECTION != 0
}

// The flags with the debug bit cleared.
pub fn without_debug_bit(flags: u8) -> u8
    ensures { result ≡ without_debug_bit flags }
{
    flags & !FLAG_HAS_DEBUG_SECTION
}

// The header as the content hash covers it: the debug bit cleared, both hashes and the directory zeroed.
pub fn masked(header: &[u8; HEADER_SIZE]) -> [u8; HEADER_SIZE]
    ensures { result ≡ masked_header header.now }
{
    let mut image = *header;
    image[FLAGS_OFFSET] = without_debug_bit(image[FLAGS_OFFSET]);
    image[CONTENT_HASH_START..CONTENT_HASH_END].fill(0);
    image[DEBUG_HASH_START..DEBUG_HASH_END].fill(0);
    image[SECTION_DIRECTORY_START..SECTION_DIRECTORY_END].fill(0);
    image
}
