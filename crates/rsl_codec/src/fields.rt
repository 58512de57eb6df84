// SPDX-License-Identifier: MIT OR Apache-2.0
ghost use Rattle.std.specs.Prelude.{◌≡◌, ◌++◌, ◌≤◌, false, length, option_map};
ghost use Rattle.std.specs.Prelude.{IfSome, OnOk};
ghost use Rattle.std.specs.Option.{ForSome};
ghost use Rattle.octets.specs.Answer.{Gives, result_map};
ghost use Rattle.octets.specs.Walk.{finding, first_of, walk};
ghost use Rattle.octets.specs.declared.limits.TheConstants.{LENGTH_LIMIT};
ghost use Rattle.rsl_codec.specs.declared.identifiers.TheConstants.{ELEMENTS};
ghost use Rattle.rsl_codec.specs.Fields.{octet_value, number_value, reference_value};
ghost use Rattle.rsl_codec.specs.RslReading.{breaks_off, channel_at, data_elements, elements_of};
ghost use Rattle.rsl_codec.specs.RslReading.{l3_at, needed_value as needed_value_of, number_of};
ghost use Rattle.rsl_codec.specs.RslReading.{octet_of, optional_l3_at, reference_of};
ghost use Rattle.rsl_codec.specs.RslText.{rsl_element_text, rsl_field_text};

use crate::identifiers::{CHANNEL_NUMBER, ELEMENTS, L3_INFORMATION, LINK_IDENTIFIER};
use crate::{ChanNo, RequestReference, RslFault};
use octets::{MESSAGE_LIMIT, Memory, Octets, element};
use std::alloc::Global;

/// The channel number octet, the link identifier octet and the L3 information of `body`, if `body`
/// consists of these three elements in written order; else `None`. Nearly all messages have such a
/// body, which is read here without a walk over its elements.
pub(crate) fn data_values(body: &[u8]) -> Option<(u8, u8, &[u8])>
    ensures { IfSome result
        (λ v. walk ELEMENTS body.now ≡ finding (data_elements v.0 v.1 v.2.now) false) }
{
    let [first, channel, second, link, third, high, low, l3 @ ..] = body else {
        return None;
    };
    if *first != CHANNEL_NUMBER
        || *second != LINK_IDENTIFIER
        || *third != L3_INFORMATION
        || l3.len() != usize::from(u16::from_be_bytes([*high, *low]))
    {
        return None;
    }
    Some((*channel, *link, l3))
}

/// Whether `body`, the octets after a message's type, ends within an element.
#[tactic(auto, unfolding(crate::specs::RslReading::breaks_off))]
pub(crate) fn is_cut(body: &[u8]) -> bool
    ensures { result ≡ breaks_off body.now }
{
    data_values(body).is_none() && element::is_cut(&ELEMENTS, body)
}

/// The value of the first element with the identifier `id`; `None` if there is no such element.
#[tactic(auto, unfolding(crate::specs::RslReading::elements_of))]
pub(crate) fn value(body: &[u8], id: u8) -> Option<&[u8]>
    ensures { option_map (λ v. v.now) result ≡ first_of id (elements_of body.now) }
{
    element::first_value(&ELEMENTS, body, id)
}

/// The value of the first element with the identifier `id`. Returns `MissingElement` if there is no
/// such element.
pub(crate) fn needed_value(body: &[u8], id: u8) -> Result<&[u8], RslFault>
    ensures { result_map (λ v. v.now) result ≡ needed_value_of id (elements_of body.now) }
{
    match value(body, id) {
        Some(value) => Ok(value),
        None => Err(RslFault::MissingElement(id)),
    }
}

/// The channel number in a value of one octet. Returns `BadChannel` if no channel has this number.
pub(crate) fn channel_number(value: &[u8]) -> Result<ChanNo, RslFault>
    ensures { result ≡ channel_at value.now }
{
    match value {
        [octet, ..] => ChanNo::read(*octet),
        [] => Err(RslFault::BadChannel),
    }
}

/// The octet of a value of one octet; 0 if `value` is empty. The value of an element whose format
/// is one octet is never empty.
pub(crate) fn octet(value: &[u8]) -> u8
    ensures { result ≡ octet_of value.now }
{
    match value {
        [octet, ..] => *octet,
        [] => 0,
    }
}

/// The number in a value of two octets, the high octet first; 0 if `value` is shorter. The value of
/// an element whose format is two octets is never shorter.
pub(crate) fn number(value: &[u8]) -> u16
    ensures { result ≡ number_of value.now }
{
    match value {
        [high, low, ..] => u16::from_be_bytes([*high, *low]),
        _ => 0,
    }
}

/// The request reference in a value of three octets: the access information, then the frame number
/// with the high octet first.
pub(crate) fn reference(value: &[u8]) -> RequestReference
    ensures { result ≡ reference_of value.now }
{
    match value {
        [access, frame @ ..] => RequestReference {
            access: *access,
            frame: number(frame),
        },
        [] => RequestReference {
            access: 0,
            frame: 0,
        },
    }
}

/// Copies L3 information of 1 to 251 octets. Returns `Short` if `value` is empty, `TooLong` if
/// `value` has more than 251 octets, `Memory` if memory runs out.
pub(crate) fn l3(alloc: Global, value: &[u8]) -> Result<Octets, RslFault>
    ensures { Gives RslFault.Memory (λ x. x) result (l3_at value.now) }
{
    if value.is_empty() {
        return Err(RslFault::Short);
    }
    if value.len() > MESSAGE_LIMIT {
        return Err(RslFault::TooLong);
    }
    Ok(Octets::copy(alloc, value)?)
}

/// Copies the L3 information if it is present. Returns the faults of `l3`.
pub(crate) fn optional_l3(alloc: Global, value: Option<&[u8]>) -> Result<Option<Octets>, RslFault>
    ensures { Gives RslFault.Memory (λ x. x) result
        (optional_l3_at (option_map (λ v. v.now) value.entry)) }
{
    match value {
        Some(value) => Ok(Some(l3(alloc, value)?)),
        None => Ok(None),
    }
}

/// Appends an element in the format that the table of elements gives the identifier `id`. Appends
/// nothing if the table doesn't have `id`.
#[tactic(auto, unfolding(crate::specs::RslText::rsl_element_text))]
pub(crate) fn put(text: &mut Vec<u8>, id: u8, value: &[u8]) -> Result<(), Memory>
    requires { length value.now ≤ LENGTH_LIMIT }
    ensures { OnOk result (text.new.items ≡ text.old.items ++ rsl_element_text id value.now) }
{
    if let Some(format) = element::format_of(&ELEMENTS, id) {
        element::append(text, format, id, value)?;
    }
    Ok(())
}

/// Appends an element whose value is this octet, if `octet` is `Some`.
pub(crate) fn put_octet(text: &mut Vec<u8>, id: u8, octet: Option<u8>) -> Result<(), Memory>
    ensures { OnOk result
        (text.new.items ≡ text.old.items ++ rsl_field_text id (option_map octet_value octet)) }
{
    match octet {
        Some(octet) => put(text, id, &[octet]),
        None => Ok(()),
    }
}

/// Appends an element whose value is this number in two octets, the high octet first, if `number`
/// is `Some`.
pub(crate) fn put_number(text: &mut Vec<u8>, id: u8, number: Option<u16>) -> Result<(), Memory>
    ensures { OnOk result
        (text.new.items ≡ text.old.items ++ rsl_field_text id (option_map number_value number)) }
{
    match number {
        Some(number) => put(text, id, &number.to_be_bytes()),
        None => Ok(()),
    }
}

/// Appends an element whose value is these octets, if `octets` is `Some`.
pub(crate) fn put_octets(text: &mut Vec<u8>, id: u8, octets: Option<&Octets>) -> Result<(), Memory>
    requires { ForSome octets (λ o. length o.now ≤ LENGTH_LIMIT) }
    ensures { OnOk result
        (text.new.items ≡ text.old.items ++
        rsl_field_text id (option_map (λ o. o.now) octets.entry)) }
{
    match octets {
        Some(octets) => put(text, id, octets.as_slice()),
        None => Ok(()),
    }
}

/// Appends an element whose value is a request reference: the access information, then the frame
/// number with the high octet first.
pub(crate) fn put_reference(
    text: &mut Vec<u8>,
    id: u8,
    reference: RequestReference,
) -> Result<(), Memory>
    ensures { OnOk result
        (text.new.items ≡ text.old.items ++ rsl_element_text id (reference_value reference)) }
{
    let [high, low] = reference.frame.to_be_bytes();
    put(text, id, &[reference.access, high, low])
}
