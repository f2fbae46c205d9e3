// The type section: its reader, lookups by position, and walks over its tables. A lookup reads its section again and trusts no count.
// Kept: one function for each table, which users call by these names; each is one call of a generic function.
#![tactic(auto)]

ghost use Rattle.std.specs.Prelude.{◌≡◌};
ghost use Rattle.format.specs.Types.{field, array, user_fb};
ghost use Rattle.base.specs.Answers.{as_it_is, got_from, next_from};
ghost use Rattle.base.specs.Section.{place_in};
ghost use Rattle.type_entries.specs.Answers.{fb_type_head_in, field_in, array_in, user_fb_in};
ghost use Rattle.type_section.specs.Answers.{type_counts_in, fb_type_entry_in, fb_type_next_from};
ghost use Rattle.type_section.specs.Lookups.{type_counts_of_section, fb_type_of_section, field_of_section, array_of_section, user_fb_of_section, tables_at, fb_type_at, field_at, array_at, array_size_at, user_fb_at, fb_types_at, arrays_at, user_fbs_at, fb_type_step_of, next_fb_type_at, next_field_at, next_array_at, next_user_fb_at};
ghost use Rattle.type_section.specs.Laws.{Laws};

use base::cut::Cut;
use base::entry::{Entry, find_by_width, skip, step};
use base::error::ContainerError;
use base::section::{Section, section_cut};
use reading::Table;
use type_entries::{
    ArrayDescriptor, FbTypeDescriptor, FieldEntry, Tables, UserFbDescriptor, tables_of,
};

// The number of entries in each table.
#[derive(Clone, Copy)]
pub struct TypeCounts {
    pub fb_types: u16,
    pub arrays: u16,
    pub user_fbs: u16,
}

// The section's reader: its refusal, or the counts of its tables.
pub fn read_from(s: &[u8]) -> Result<TypeCounts, ContainerError>
    ensures { got_from type_counts_in result ≡ type_counts_of_section s.now }
{
    let t = tables_of(s)?;
    Ok(TypeCounts {
        fb_types: t.fb_types.count as u16,
        arrays: t.arrays.count as u16,
        user_fbs: t.user_fbs.count as u16,
    })
}

// The FB type at an index of the section, and the table of its fields.
fn find_fb_type(cut: Cut, index: u16) -> Result<(FbTypeDescriptor, Table), ContainerError>
    ensures { got_from fb_type_entry_in result ≡ fb_type_of_section cut.entry.bytes.now index }
{
    let t = tables_of(cut.bytes)?.fb_types;
    if t.count <= index as usize {
        return Err(ContainerError::NoEntry);
    }
    let at = skip::<FbTypeDescriptor>(cut, t.at, index as usize)?;
    let (fb_type, _) = FbTypeDescriptor::read(cut, at)?;
    Ok((fb_type, fb_type.fields(at)))
}

// The field at an index of the FB type at an index of the section.
fn find_field(cut: Cut, index: u16, field: u16) -> Result<FieldEntry, ContainerError>
    ensures { got_from field_in result ≡ field_of_section cut.entry.bytes.now index field }
{
    let (_, fields) = find_fb_type(cut, index)?;
    find_by_width(cut, fields, field)?.ok_or(ContainerError::NoEntry)
}

// The array at an index of the section.
fn find_array(cut: Cut, index: u16) -> Result<ArrayDescriptor, ContainerError>
    ensures { got_from array_in result ≡ array_of_section cut.entry.bytes.now index }
{
    let t = tables_of(cut.bytes)?.arrays;
    find_by_width(cut, t, index)?.ok_or(ContainerError::NoArray)
}

// The user FB at an index of the section.
fn find_user_fb(cut: Cut, index: u16) -> Result<UserFbDescriptor, ContainerError>
    ensures { got_from user_fb_in result ≡ user_fb_of_section cut.entry.bytes.now index }
{
    let t = tables_of(cut.bytes)?.user_fbs;
    find_by_width(cut, t, index)?.ok_or(ContainerError::NoEntry)
}

// An FB type: its id and its number of fields.
pub fn fb_type(
    file: &[u8],
    section: Section,
    index: u16,
) -> Result<FbTypeDescriptor, ContainerError>
    ensures { got_from fb_type_head_in result ≡ fb_type_at file.now (place_in section) index }
{
    Ok(find_fb_type(section_cut(file, section)?, index)?.0)
}

// A field of an FB type.
#[tactic(auto, using(base::proofs::FileLookups::lookup_err, base::proofs::FileLookups::lookup_ok))]
pub fn field(
    file: &[u8],
    section: Section,
    index: u16,
    field: u16,
) -> Result<FieldEntry, ContainerError>
    ensures { got_from field_in result ≡ field_at file.now (place_in section) index field }
{
    find_field(section_cut(file, section)?, index, field)
}

// An array.
#[tactic(auto, using(base::proofs::FileLookups::lookup_err, base::proofs::FileLookups::lookup_ok))]
pub fn array(file: &[u8], section: Section, index: u16) -> Result<ArrayDescriptor, ContainerError>
    ensures { got_from array_in result ≡ array_at file.now (place_in section) index }
{
    find_array(section_cut(file, section)?, index)
}

// The bytes of an array.
pub fn array_size(file: &[u8], section: Section, index: u16) -> Result<u32, ContainerError>
    ensures { got_from as_it_is result ≡ array_size_at file.now (place_in section) index }
{
    array(file, section, index)?.byte_size()
}

// A user FB.
#[tactic(auto, using(base::proofs::FileLookups::lookup_err, base::proofs::FileLookups::lookup_ok))]
pub fn user_fb(
    file: &[u8],
    section: Section,
    index: u16,
) -> Result<UserFbDescriptor, ContainerError>
    ensures { got_from user_fb_in result ≡ user_fb_at file.now (place_in section) index }
{
    find_user_fb(section_cut(file, section)?, index)
}

// The tables of the section, read once.
#[tactic(auto, using(base::proofs::FileLookups::lookup_err, base::proofs::FileLookups::lookup_ok))]
fn tables(file: &[u8], section: Section) -> Result<Tables, ContainerError>
    ensures { got_from as_it_is result ≡ tables_at file.now (place_in section) }
{
    tables_of(section_cut(file, section)?.bytes)
}

// Where a walk over the FB types starts.
pub fn fb_types(file: &[u8], section: Section) -> Result<Table, ContainerError>
    ensures { got_from as_it_is result ≡ fb_types_at file.now (place_in section) }
{
    Ok(tables(file, section)?.fb_types)
}

// Where a walk over the arrays starts.
pub fn arrays(file: &[u8], section: Section) -> Result<Table, ContainerError>
    ensures { got_from as_it_is result ≡ arrays_at file.now (place_in section) }
{
    Ok(tables(file, section)?.arrays)
}

// Where a walk over the user FBs starts.
pub fn user_fbs(file: &[u8], section: Section) -> Result<Table, ContainerError>
    ensures { got_from as_it_is result ≡ user_fbs_at file.now (place_in section) }
{
    Ok(tables(file, section)?.user_fbs)
}

// The next FB type of a walk over a table of the section, with the table of its fields.
fn step_fb_type(
    cut: Cut,
    t: Table,
) -> Result<Option<(FbTypeDescriptor, Table, Table)>, ContainerError>
    ensures { fb_type_next_from result ≡ fb_type_step_of cut.entry.bytes.now t }
{
    let Some((fb_type, behind)) = step::<FbTypeDescriptor>(cut, t)? else {
        return Ok(None);
    };
    Ok(Some((fb_type, fb_type.fields(t.at), behind)))
}

// The next FB type of a walk, the table of its fields, and the FB types behind it.
pub fn next_fb_type(
    file: &[u8],
    section: Section,
    t: Table,
) -> Result<Option<(FbTypeDescriptor, Table, Table)>, ContainerError>
    ensures { fb_type_next_from result ≡ next_fb_type_at file.now (place_in section) t }
{
    step_fb_type(section_cut(file, section)?, t)
}

// The next field of a walk over the fields of an FB type.
#[tactic(auto, using(base::proofs::FileLookups::walk_err, base::proofs::FileLookups::walk_ok))]
pub fn next_field(
    file: &[u8],
    section: Section,
    t: Table,
) -> Result<Option<(FieldEntry, Table)>, ContainerError>
    ensures { next_from field_in result ≡ next_field_at file.now (place_in section) t }
{
    step(section_cut(file, section)?, t)
}

// The next array of a walk.
#[tactic(auto, using(base::proofs::FileLookups::walk_err, base::proofs::FileLookups::walk_ok))]
pub fn next_array(
    file: &[u8],
    section: Section,
    t: Table,
) -> Result<Option<(ArrayDescriptor, Table)>, ContainerError>
    ensures { next_from array_in result ≡ next_array_at file.now (place_in section) t }
{
    step(section_cut(file, section)?, t)
}

// The next user FB of a walk.
#[tactic(auto, using(base::proofs::FileLookups::walk_err, base::proofs::FileLookups::walk_ok))]
pub fn next_user_fb(
    file: &[u8],
    section: Section,
    t: Table,
) -> Result<Option<(UserFbDescriptor, Table)>, ContainerError>
    ensures { next_from user_fb_in result ≡ next_user_fb_at file.now (place_in section) t }
{
    step(section_cut(file, section)?, t)
}

// The claims of `specs/Laws.antt` hold. Empty body: the contract makes the checker prove them.
pub fn laws_hold()
    ensures { Laws }
{}
