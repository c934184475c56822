//! The values of a query.
ghost use Rattle.std.specs.Prelude.{◌≡◌, ◌<◌, ◌^◌, ◌∷◌, ℕ, List, true, IfOk, map, option_map};
ghost use Rattle.std.specs.Cow.{cow_str_bytes};
ghost use Rattle.std.specs.Option.{option_or};
ghost use Rattle.std.specs.Str.{bytes_eq, str_to_ascii_uppercase};
ghost use Rattle.form_urlencoded.specs.Form.{IsPlainText};
ghost use Rattle.eu_base.specs.Gives.{Gives};
ghost use Rattle.eu_routes.specs.Query as spec;

use crate::parameters::Parameter;
use eu_base::{Config, Fault, Stamp, Status, read_digits};
use form_urlencoded::{decode, raw_pairs};
use std::alloc::{AllocError, Global};
use std::borrow::CowStr;

/// The most digits of a setting.
const MOST_U32_DIGITS: usize = 10;

/// The stamp of that text: 1 to 19 decimal digits, up to 2^63 - 1. None for any other text.
#[tactic(auto, unfolding(crate::specs::Query::stamp_of))]
pub fn read_stamp(text: &str) -> Option<Stamp>
    ensures { result ≡ spec.stamp_of text.now }
{
    if text.is_empty() {
        return None;
    }
    Stamp::new(read_digits(text.as_bytes())?)
}

/// Whether bytes stand for themselves: ASCII without an escape (`application/x-www-form-urlencoded`, URL Standard, section 5.1).
fn is_plain(bytes: &[u8]) -> bool
    ensures { result ≡ true → IsPlainText bytes.now }
{
    for byte in bytes {
        if !byte.is_ascii() || *byte == b'+' || *byte == b'%' {
            return false;
        }
    }
    true
}

/// Whether bytes stand for the name of the one, and whether for that of the other. Takes no memory where they stand for themselves.
fn are_named(
    alloc: Global,
    bytes: &[u8],
    one: Parameter,
    other: Parameter,
) -> Result<(bool, bool), AllocError>
    ensures one { IfOk result (λ named. named.0 ≡ bytes_eq (spec.text_of bytes.now) (spec.name_of one)) }
    ensures other { IfOk result (λ named. named.1 ≡ bytes_eq (spec.text_of bytes.now) (spec.name_of other)) }
{
    let is_one = bytes == one.name().as_bytes();
    let is_other = bytes == other.name().as_bytes();
    if is_one || is_other || is_plain(bytes) {
        return Ok((is_one, is_other));
    }
    let text = decode(alloc, bytes)?;
    Ok((text.as_str() == one.name(), text.as_str() == other.name()))
}

/// The value that was found before, else that of a pair, where it has the name.
fn first_of<'q>(found: Option<&'q [u8]>, named: bool, value: &'q [u8]) -> Option<&'q [u8]>
    ensures { (name : List ℕ) → (pair : List ℕ × List ℕ) → (pairs : List (List ℕ × List ℕ)) → pair.1 ≡ value.now → named ≡ bytes_eq (spec.text_of pair.0) name
        → option_or (option_map (λ v. spec.text_of v.now) result) (spec.value_among name pairs) ≡ option_or (option_map (λ v. spec.text_of v.now) found.entry) (spec.value_among name (pair ∷ pairs)) }
{
    match found {
        None if named => Some(value),
        _ => found,
    }
}

/// The text that a value stands for, if there is one.
fn text_of(alloc: Global, value: Option<&[u8]>) -> Result<Option<CowStr<'_, Global>>, AllocError>
    ensures { IfOk result (λ text. option_map cow_str_bytes text ≡ option_map (λ v. spec.text_of v.now) value.entry) }
{
    match value {
        Some(bytes) => Ok(Some(decode(alloc, bytes)?)),
        None => Ok(None),
    }
}

/// The values of two parameters in a query, each that of the first pair with its name, if one has it, of one look at the pairs. A value borrows the query
/// where nothing in it is encoded.
///
/// The only fault is want of memory.
#[tactic(auto, unfolding(crate::specs::Query::value_at))]
pub fn values_at<'q>(
    alloc: Global,
    query: &'q str,
    one: Parameter,
    other: Parameter,
) -> Result<(Option<CowStr<'q, Global>>, Option<CowStr<'q, Global>>), AllocError>
    ensures one { IfOk result (λ values. option_map cow_str_bytes values.0 ≡ spec.value_at (spec.name_of one) query.now) }
    ensures other { IfOk result (λ values. option_map cow_str_bytes values.1 ≡ spec.value_at (spec.name_of other) query.now) }
{
    let mut first = None;
    let mut second = None;
    for (name, value) in raw_pairs(query.as_bytes()) {
        let (is_one, is_other) = are_named(alloc, name, one, other)?;
        first = first_of(first, is_one, value);
        second = first_of(second, is_other, value);
    }
    Ok((text_of(alloc, first)?, text_of(alloc, second)?))
}

/// The stamp that a value tells. None where there is no value, or an empty one; `BadValue` for any other text.
pub fn stamp_given(value: Option<CowStr<'_, Global>>) -> Result<Option<Stamp>, Fault>
    ensures { result ≡ spec.stamp_given (option_map cow_str_bytes value.entry) }
{
    let Some(value) = value else {
        return Ok(None);
    };
    let text = value.as_str();
    if text.is_empty() {
        return Ok(None);
    }
    match read_stamp(text) {
        Some(stamp) => Ok(Some(stamp)),
        None => Err(Fault::BadValue),
    }
}

/// The status that a value tells. None where there is no value; `BadValue` for any text that is no status, an empty one too.
#[tactic(auto, unfolding(crate::specs::Query::status_in))]
pub fn status_given(value: Option<CowStr<'_, Global>>) -> Result<Option<Status>, Fault>
    ensures { result ≡ spec.status_given (option_map cow_str_bytes value.entry) }
{
    let Some(value) = value else {
        return Ok(None);
    };
    match Status::read_any_case(value.as_str()) {
        Some(status) => Ok(Some(status)),
        None => Err(Fault::BadValue),
    }
}

/// The number of that text: 1 to 10 decimal digits, up to 2^32 - 1. None for any other text.
#[tactic(auto, unfolding(crate::specs::Query::u32_of))]
fn read_u32(text: &str) -> Option<u32>
    ensures { result ≡ spec.u32_of text.now }
{
    if text.is_empty() || text.len() > MOST_U32_DIGITS {
        return None;
    }
    u32::try_from(read_digits(text.as_bytes())?).ok()
}

/// Whether a text is `on` or `off`. None for any other text.
#[tactic(auto, unfolding(crate::specs::Query::switch_of))]
fn read_switch(text: &str) -> Option<bool>
    ensures { result ≡ spec.switch_of text.now }
{
    match text {
        "on" => Some(true),
        "off" => Some(false),
        _ => None,
    }
}

/// The number that a value tells. `BadValue` where there is no value, or one that isn't a number below 2^32.
fn u32_given(value: Option<CowStr<'_, Global>>) -> Result<u32, Fault>
    ensures { result ≡ spec.needed spec.u32_of (option_map cow_str_bytes value.entry) }
{
    let Some(value) = value else {
        return Err(Fault::BadValue);
    };
    read_u32(value.as_str()).ok_or(Fault::BadValue)
}

/// Whether a value tells that a setting is on. `BadValue` where there is no value, or one that is neither `on` nor `off`.
fn switch_given(value: Option<CowStr<'_, Global>>) -> Result<bool, Fault>
    ensures { result ≡ spec.needed spec.switch_of (option_map cow_str_bytes value.entry) }
{
    let Some(value) = value else {
        return Err(Fault::BadValue);
    };
    read_switch(value.as_str()).ok_or(Fault::BadValue)
}

/// The settings of a query: `preservation`, `percent`, `interval` and `evictMs`. `BadValue` where one is missing, isn't of its kind or is
/// past its limits (`Config::new`); `OutOfMemory`.
#[tactic(auto, unfolding(crate::specs::Query::settings_at, crate::specs::Query::switch_at, crate::specs::Query::u32_at, crate::specs::Query::value_at))]
pub fn config_at(alloc: Global, query: &str) -> Result<Config, Fault>
    ensures { Gives result (spec.settings_at query.now) }
{
    let (preservation, percent) = values_at(
        alloc,
        query,
        Parameter::Preservation,
        Parameter::Percent,
    )?;
    let (interval, evict_ms) = values_at(alloc, query, Parameter::Interval, Parameter::EvictMs)?;
    let preservation = switch_given(preservation)?;
    let percent = u32_given(percent)?;
    let interval = u32_given(interval)?;
    let evict_ms = u32_given(evict_ms)?;
    Config::of_values(preservation, percent, interval, evict_ms).ok_or(Fault::BadValue)
}
