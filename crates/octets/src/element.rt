// SPDX-License-Identifier: MIT OR Apache-2.0
ghost use Rattle.std.specs.Prelude.{◌≡◌, ◌++◌, ℕ, Bool, true, false, List, length};
ghost use Rattle.std.specs.Prelude.{option_map};
ghost use Rattle.std.specs.Prelude.{OnErr, OnOk};
ghost use Rattle.octets.specs.Element.{AreElements, AreOctets, Element, HasLength, Stops, element};
ghost use Rattle.octets.specs.Element.{element_text, format_in};
ghost use Rattle.octets.specs.Field.{AllFit, Carries, Field, IsSized, are_distinct, fields_text};
ghost use Rattle.octets.specs.Answer.{result_map};
ghost use Rattle.octets.specs.Walk.{width_of, size_by, front_of, walk, finding, first_of};

use crate::Memory;
use crate::front::split;

/// The format of an information element after its identifier (TS 24.007 clause 11.2.1.1).
#[derive(Clone, Copy, Debug, PartialEq, Eq)]
pub enum Format {
    /// A value of this many octets, without a length. `Tv(0)` is the format T: the identifier
    /// alone.
    Tv(u8),
    /// One octet with the length of the value, then the value.
    Tlv,
    /// Two octets with the length of the value, the high octet first, then the value.
    TlvE,
}

/// An entry of an element table: a known identifier and the format of its elements.
#[derive(Clone, Copy, Debug, PartialEq, Eq)]
pub struct Entry {
    pub id: u8,
    pub format: Format,
}

/// The fault of octets that end within an element.
#[derive(Clone, Copy)]
struct Cut;

/// An element at the front of octets, and the octets after it.
#[derive(Clone, Copy)]
struct Found<'a> {
    id: u8,
    value: &'a [u8],
    rest: &'a [u8],
}

impl Format {
    /// The number of length octets before the value.
    fn width(self) -> usize
        ensures { result ≡ width_of self }
    {
        match self {
            Format::Tv(_) => 0,
            Format::Tlv => 1,
            Format::TlvE => 2,
        }
    }

    /// The size of the value in octets: fixed for `Tv`, else the number in `length_octets`.
    fn size(self, length_octets: &[u8]) -> usize
        requires { length length_octets.now ≡ width_of self }
        ensures { result ≡ size_by self length_octets.now }
    {
        match self {
            Format::Tv(size) => size as usize,
            Format::Tlv => length_octets[0] as usize,
            Format::TlvE => usize::from(u16::from_be_bytes([length_octets[0], length_octets[1]])),
        }
    }
}

/// The format of the first entry of `table` with the identifier `id`; `None` if there is no such
/// entry.
pub fn format_of(table: &[Entry], id: u8) -> Option<Format>
    ensures { result ≡ format_in table.now id }
{
    table
        .iter()
        .find(|entry| entry.id == id)
        .map(|entry| entry.format)
}

/// The element at the front of `octets`. `Ok(None)` if `octets` is empty or begins with an
/// identifier outside the table; `Err(Cut)` if the octets end within the element.
fn front<'a>(table: &[Entry], octets: &'a [u8]) -> Result<Option<Found<'a>>, Cut>
    ensures { result_map (option_map (λ f. (element f.id f.value.now, f.rest.now))) result ≡
        front_of table.now octets.now }
{
    let Some((id, rest)) = octets.split_first() else {
        return Ok(None);
    };
    let Some(format) = format_of(table, *id) else {
        return Ok(None);
    };
    let (length_octets, rest) = split(rest, format.width(), Cut)?;
    let (value, rest) = split(rest, format.size(length_octets), Cut)?;
    Ok(Some(Found {
        id: *id,
        value,
        rest,
    }))
}

/// Whether the octets end within an element of the table. Elements are read from the front; `false`
/// if the reading meets an identifier outside the table.
pub fn is_cut(table: &[Entry], octets: &[u8]) -> bool
    ensures { result ≡ (walk table.now octets.now).is_cut }
{
    let mut rest = octets;
    loop {
        match front(table, rest) {
            Ok(Some(found)) => rest = found.rest,
            Ok(None) => return false,
            Err(Cut) => return true,
        }
    }
}

/// The value of the first element with the identifier `id`. Elements are read from the front.
/// `None` if the reading ends before such an element: at the end of the octets, at an element that
/// is cut short, or at an identifier outside the table.
pub fn first_value<'a>(table: &[Entry], octets: &'a [u8], id: u8) -> Option<&'a [u8]>
    ensures { option_map (λ v. v.now) result ≡ first_of id (walk table.now octets.now).elements }
{
    let mut rest = octets;
    loop {
        match front(table, rest) {
            Ok(Some(found)) => {
                if found.id == id {
                    return Some(found.value);
                }
                rest = found.rest;
            }
            Ok(None) => return None,
            Err(Cut) => return None,
        }
    }
}

/// Appends an element in the format `format`: the identifier `id`, the length octets if the format
/// has them, and `value`. For `Tv` the size of the value isn't checked. On `Err` (allocation
/// failure), `text` is unchanged. Assumes: the length octets of the format, if there are any, can
/// hold the size of the value.
pub fn append(text: &mut Vec<u8>, format: Format, id: u8, value: &[u8]) -> Result<(), Memory>
    requires { HasLength format (length value.now) }
    ensures ok { OnOk result
        (text.new.items ≡ text.old.items ++ element_text format (element id value.now)) }
    ensures err { OnErr result (text.new.items ≡ text.old.items) }
{
    let size = value.len();
    text.reserve(1 + format.width() + size)?;
    text.push_reserved(id);
    match format {
        Format::Tv(_) => {}
        Format::Tlv => text.push_reserved(size as u8),
        Format::TlvE => {
            let [high, low] = (size as u16).to_be_bytes();
            text.push_reserved(high);
            text.push_reserved(low);
        }
    }
    text.extend_from_slice(value)?;
    Ok(())
}

/// Law: a walk from the front of octets finds exactly the elements of which the octets consist.
/// Octets consist of elements in only one way. The value of the first element with an identifier
/// has a size that the format of the identifier allows.
pub fn elements_are_one()
    ensures found { (table : List Entry) (octets : List ℕ) → AreOctets octets →
        AreElements table octets (walk table octets).elements (walk table octets).is_cut }
    ensures only { (table : List Entry) (octets : List ℕ) (es : List Element) (is_cut : Bool) →
        AreElements table octets es is_cut → walk table octets ≡ finding es is_cut }
    ensures sized { (table : List Entry) (octets : List ℕ) (es : List Element) (is_cut : Bool)
        (id : ℕ) (value : List ℕ) →
        AreOctets octets → AreElements table octets es is_cut → first_of id es ≡ Some value →
        IsSized table id value }
{}

/// Law: the elements of fields, written one after the other, are read as elements that carry these
/// fields, whatever octets follow. Assumes: each value fits its format, no identifier occurs twice,
/// and the octets that follow, if there are any, begin with an identifier outside the table.
pub fn written_fields_are_carried()
    ensures { (table : List Entry) (fields : List Field) (more : List ℕ) →
        AllFit table fields → are_distinct fields ≡ true → Stops table more →
        (es : List Element) × AreElements table (fields_text table fields ++ more) es false ×
        Carries es fields }
{}
