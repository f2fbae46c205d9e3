// The entries of the type section, each read at a place of it, and the places of its tables.
#![tactic(auto)]

ghost use Rattle.std.specs.Prelude.{◌≡◌, ◌+◌, ◌^◌, ◌≤◌, ◌<◌, length, drop, IfOk};
ghost use Rattle.std.proofs.Common.{rules};
ghost use Rattle.reading.specs.Reader.{counted, counted_or_none};
ghost use Rattle.reading.specs.Answer.{item_of};
ghost use Rattle.reading.specs.Places.{step_at};
ghost use Rattle.reading.proofs.Left.{stays-local};
ghost use Rattle.reading.proofs.Width.{fixed-width};
ghost use Rattle.format.specs.Types.{Field, field, natural_stride, stride_fits, element_char_width, Array, array, UserFb, user_fb};
ghost use Rattle.format.specs.Lookups.{FbTypeHead, byte_size};
ghost use Rattle.format.proofs.Readers.{local-field, local-array, local-user-fb};
ghost use Rattle.format.proofs.Widths.{field-width, array-width, user-fb-fixed};
ghost use Rattle.base.specs.Answers.{as_it_is, got_from, step_from};
ghost use Rattle.base.specs.Cut.{place_of};
ghost use Rattle.base.specs.Error.{fault_of};
ghost use Rattle.base.specs.Small.{byte_width};
ghost use Rattle.type_entries.specs.Answers.{field_in, fb_type_head_in, fb_type_head, string_width, array_in, stride_checked, user_fb_in, table_at};
ghost use Rattle.type_entries.specs.Starts.{field_entry_size, fb_type_head_size, array_descriptor_size, user_fb_descriptor_size, head_fields, fields_anywhere, type_starts_in};
ghost use Rattle.type_entries.specs.Stays.{fb_type_head_stays};

use base::char_width::CharWidth;
use base::cut::Cut;
use base::entry::{Entry, OneWidth, Plain, pass, skip};
use base::error::ContainerError;
use base::field_type::FieldType;
use base::id_types::{FbTypeId, FunctionId};
use base::string_layout::string_region_size;
use reading::{Table, u8_at, u16_at, u32_at};

// The bytes of the count in front of each table.
const COUNT_SIZE: usize = 2;

pub const FIELD_ENTRY_SIZE: usize = 4;

// The bytes of an FB type without its fields.
pub const FB_TYPE_HEAD_SIZE: usize = 4;

pub const ARRAY_DESCRIPTOR_SIZE: usize = 12;

pub const USER_FB_DESCRIPTOR_SIZE: usize = 8;

// The bytes of a slot of the data region.
pub const SLOT_BYTES: u32 = 8;

// A field of an FB type.
#[derive(Clone, Copy)]
pub struct FieldEntry {
    pub field_type: FieldType,
    pub field_extra: u16,
}

// An FB type: its id and its number of fields. The fields are read one by one.
#[derive(Clone, Copy)]
pub struct FbTypeDescriptor {
    pub type_id: FbTypeId,
    pub num_fields: u8,
}

// An array. The stride is the distance between the starts of neighbouring elements.
// Kept: `element_type` is a byte, since document 01 lets an array have any, also one that is no FieldType.
#[derive(Clone, Copy)]
pub struct ArrayDescriptor {
    pub element_type: u8,
    pub total_elements: u32,
    pub element_extra: u16,
    pub element_stride: u32,
}

// A user-defined FB: its id, the function of its body, its first variable and its number of fields.
#[derive(Clone, Copy)]
pub struct UserFbDescriptor {
    pub type_id: FbTypeId,
    pub function_id: FunctionId,
    pub var_offset: u16,
    pub num_fields: u8,
}

// Where the entries of each table start, and their counts.
#[derive(Clone, Copy)]
pub struct Tables {
    pub fb_types: Table,
    pub arrays: Table,
    pub user_fbs: Table,
}

// The width of the characters of a string type; None for any other type.
fn string_width(element_type: u8) -> Option<CharWidth>
    ensures { result ≡ string_width element_type }
{
    match FieldType::try_from(element_type) {
        Ok(FieldType::String) => Some(CharWidth::Narrow),
        Ok(FieldType::WString) => Some(CharWidth::Wide),
        _ => None,
    }
}

// A string's stride may exceed the natural one; any other element's stride must equal it.
fn stride_fits(element_type: u8, element_extra: u16, element_stride: u32) -> bool
    ensures { result ≡ stride_fits element_type element_extra element_stride }
{
    let natural = ArrayDescriptor::natural_stride(element_type, element_extra);
    match string_width(element_type) {
        Some(_) => natural <= element_stride,
        None => natural == element_stride,
    }
}

impl ArrayDescriptor {
    // The bytes of one element: a string with its header, or a slot.
    pub fn natural_stride(element_type: u8, element_extra: u16) -> u32
        ensures { result ≡ natural_stride element_type element_extra }
    {
        match string_width(element_type) {
            Some(width) => string_region_size(element_extra, width),
            None => SLOT_BYTES,
        }
    }

    // The bytes from the start of one element to the start of the next.
    pub fn element_stride(self) -> u32
        ensures { result ≡ (array_in self).stride }
    {
        self.element_stride
    }

    // Bytes per character of a string element.
    pub fn element_char_width(self) -> CharWidth
        ensures { byte_width result ≡ element_char_width (array_in self) }
    {
        string_width(self.element_type).unwrap_or(CharWidth::Narrow)
    }

    // Whether the element's type allows the stride.
    pub fn validate(self) -> Result<(), ContainerError>
        ensures { got_from as_it_is result ≡ stride_checked (array_in self) }
    {
        if stride_fits(self.element_type, self.element_extra, self.element_stride) {
            return Ok(());
        }
        Err(ContainerError::InvalidArrayStride {
            element_type: self.element_type,
            element_stride: self.element_stride,
        })
    }

    // The bytes of all elements.
    pub fn byte_size(self) -> Result<u32, ContainerError>
        ensures { got_from as_it_is result ≡ byte_size (array_in self) }
    {
        self.total_elements
            .checked_mul(self.element_stride)
            .ok_or(ContainerError::SizeOverflow)
    }
}

impl Entry for FieldEntry {
    type Error = ContainerError;

    ghost Kept = { Field };

    ghost kept = { field_in };

    ghost told = { λ _. fault_of };

    ghost reader = { λ _. field };

    ghost stays = { λ _ s. stays-local s local-field };

    // All its bytes must be there before its type is checked.
    fn read(cut: Cut, at: usize) -> Result<(Self, usize), ContainerError> {
        if cut.left(at) < FIELD_ENTRY_SIZE {
            return Err(ContainerError::ShortInput);
        }
        let field_type = FieldType::try_from(u8_at(cut.bytes, at))?;
        let field_extra = u16_at(cut.bytes, at + 2);
        Ok((
            FieldEntry {
                field_type,
                field_extra,
            },
            at + FIELD_ENTRY_SIZE,
        ))
    }
}

impl OneWidth for FieldEntry {
    const WIDTH: usize = FIELD_ENTRY_SIZE;

    ghost WIDTH = { field_entry_size };

    ghost width = { λ _. (Prim.search rules, field-width) };
}

impl FbTypeDescriptor {
    // The table of its fields, which stand behind its head at the place `at`.
    pub fn fields(self, at: usize) -> Table
        ensures inside { at + fb_type_head_size < 2 ^ 64 → result ≡ head_fields at (fb_type_head_in self) }
        ensures anywhere { result ≡ fields_anywhere at (fb_type_head_in self) }
    {
        Table {
            at: at.saturating_add(FB_TYPE_HEAD_SIZE),
            count: self.num_fields as usize,
        }
    }
}

impl Entry for FbTypeDescriptor {
    type Error = ContainerError;

    ghost Kept = { FbTypeHead };

    ghost kept = { fb_type_head_in };

    ghost told = { λ _. fault_of };

    ghost reader = { λ _. fb_type_head };

    ghost stays = { λ _. fb_type_head_stays };

    // Its fields are passed over, and so checked.
    fn read(cut: Cut, at: usize) -> Result<(Self, usize), ContainerError> {
        if cut.left(at) < FB_TYPE_HEAD_SIZE {
            return Err(ContainerError::ShortInput);
        }
        let fb_type = FbTypeDescriptor {
            type_id: FbTypeId(u16_at(cut.bytes, at)),
            num_fields: u8_at(cut.bytes, at + 2),
        };
        let fields = fb_type.fields(at);
        let end = skip::<FieldEntry>(cut, fields.at, fields.count)?;
        Ok((fb_type, end))
    }
}

impl Entry for ArrayDescriptor {
    type Error = ContainerError;

    ghost Kept = { Array };

    ghost kept = { array_in };

    ghost told = { λ _. fault_of };

    ghost reader = { λ _. array };

    ghost stays = { λ _ s. stays-local s local-array };

    fn read(cut: Cut, at: usize) -> Result<(Self, usize), ContainerError> {
        if cut.left(at) < ARRAY_DESCRIPTOR_SIZE {
            return Err(ContainerError::ShortInput);
        }
        let array = ArrayDescriptor {
            element_type: u8_at(cut.bytes, at),
            total_elements: u32_at(cut.bytes, at + 2),
            element_extra: u16_at(cut.bytes, at + 6),
            element_stride: u32_at(cut.bytes, at + 8),
        };
        array.validate()?;
        Ok((array, at + ARRAY_DESCRIPTOR_SIZE))
    }
}

impl OneWidth for ArrayDescriptor {
    const WIDTH: usize = ARRAY_DESCRIPTOR_SIZE;

    ghost WIDTH = { array_descriptor_size };

    ghost width = { λ _. (Prim.search rules, array-width) };
}

impl Entry for UserFbDescriptor {
    type Error = ContainerError;

    ghost Kept = { UserFb };

    ghost kept = { user_fb_in };

    ghost told = { λ _. fault_of };

    ghost reader = { λ _. user_fb };

    ghost stays = { λ _ s. stays-local s local-user-fb };

    fn read(cut: Cut, at: usize) -> Result<(Self, usize), ContainerError> {
        if cut.left(at) < USER_FB_DESCRIPTOR_SIZE {
            return Err(ContainerError::ShortInput);
        }
        let user_fb = UserFbDescriptor {
            type_id: FbTypeId(u16_at(cut.bytes, at)),
            function_id: FunctionId(u16_at(cut.bytes, at + 2)),
            var_offset: u16_at(cut.bytes, at + 4),
            num_fields: u8_at(cut.bytes, at + 6),
        };
        Ok((user_fb, at + USER_FB_DESCRIPTOR_SIZE))
    }
}

impl OneWidth for UserFbDescriptor {
    const WIDTH: usize = USER_FB_DESCRIPTOR_SIZE;

    ghost WIDTH = { user_fb_descriptor_size };

    ghost width = { λ _. (Prim.search rules, fixed-width user-fb-fixed) };
}

impl Plain for UserFbDescriptor {
    ghost fixed = { λ _. user-fb-fixed };
}

// A table with its count in front, at `at`: where its entries start, and where it ends.
fn table<E: Entry<Error = ContainerError>>(
    cut: Cut,
    at: usize,
) -> Result<(Table, usize), ContainerError>
    requires told { (e : ContainerError) → E.told cut.bytes.now e ≡ fault_of e }
    ensures read { step_from as_it_is result ≡ step_at (table_at at (counted (E.reader (place_of cut.entry)))) cut.entry.bytes.now at }
    ensures few { IfOk result (λ x. x.0.count < 2 ^ 16) }
{
    if cut.left(at) < COUNT_SIZE {
        return Err(ContainerError::ShortInput);
    }
    let entries = Table {
        at: at + COUNT_SIZE,
        count: u16_at(cut.bytes, at) as usize,
    };
    let end = skip::<E>(cut, entries.at, entries.count)?;
    Ok((entries, end))
}

// The table of user FBs. Fewer bytes than a count has mean zero user FBs. None can be refused, so only their bytes must be there.
fn user_fb_table(cut: Cut, at: usize) -> Result<Table, ContainerError>
    requires { at ≤ length cut.bytes.now }
    ensures read { got_from as_it_is result ≡ item_of (table_at at (counted_or_none user_fb) (drop at cut.entry.bytes.now)) }
    ensures few { IfOk result (λ t. t.count < 2 ^ 16) }
{
    let first = at + COUNT_SIZE;
    if cut.left(at) < COUNT_SIZE {
        return Ok(Table {
            at: first,
            count: 0,
        });
    }
    let count = u16_at(cut.bytes, at) as usize;
    pass::<UserFbDescriptor>(cut, first, count).ok_or(ContainerError::ShortInput)?;
    Ok(Table { at: first, count })
}

// The section's reader: its refusal, or the places of its tables. Each count is a number of two bytes.
pub fn tables_of(s: &[u8]) -> Result<Tables, ContainerError>
    ensures read { got_from as_it_is result ≡ type_starts_in s.now }
    ensures few { IfOk result (λ t. (t.fb_types.count < 2 ^ 16) × (t.arrays.count < 2 ^ 16) × (t.user_fbs.count < 2 ^ 16)) }
{
    let cut = Cut::of(s);
    let (fb_types, behind_fb_types) = table::<FbTypeDescriptor>(cut, 0)?;
    let (arrays, behind_arrays) = table::<ArrayDescriptor>(cut, behind_fb_types)?;
    let user_fbs = user_fb_table(cut, behind_arrays)?;
    Ok(Tables {
        fb_types,
        arrays,
        user_fbs,
    })
}
