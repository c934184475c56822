//! The path of a target, and the names in its segments.
ghost use Rattle.std.specs.Prelude.{◌≡◌, ◌≢◌, Err, IfErr, IfSome, IfNone, IsOk, OnOk, true, false, length, drop, IsAscii};
ghost use Rattle.std.specs.Cow.{cow_str_bytes};
ghost use Rattle.eu_base.specs.Gives.{Gives, result_map};
ghost use Rattle.eu_routes.specs.Path as spec;

use eu_base::{App, Fault, Id, Key, LONGEST_NAME};
use percent_encoding::{DecodeError, percent_decode_str};
use std::alloc::Global;
use std::borrow::CowStr;

/// What follows a prefix at the front of a text, in letters of either case.
fn after_prefix<'t>(text: &'t str, prefix: &str) -> Option<&'t str>
    requires small { spec.IsSmall prefix.now }
    requires ascii { IsAscii prefix.now }
    ensures some { IfSome result (λ rest. (spec.begins_with prefix.now text.now ≡ true) × (rest.now ≡ drop (length prefix.now) text.now)) }
    ensures none { IfNone result (spec.begins_with prefix.now text.now ≡ false) }
{
    let (front, rest) = text.split_at_checked(prefix.len())?;
    if front.eq_ignore_ascii_case(prefix) {
        Some(rest)
    } else {
        None
    }
}

/// What a text has from its first slash on. Nothing where it has none.
fn from_slash(text: &str) -> &str
    ensures { result.now ≡ spec.from_slash text.now }
{
    match text.find('/') {
        Some(place) => &text[place..],
        None => "",
    }
}

/// The target without the scheme and the host that it may begin with.
#[tactic(auto, unfolding(crate::specs::Path::without_host))]
fn without_host(target: &str) -> &str
    ensures { result.now ≡ spec.without_host target.now }
{
    match after_prefix(target, "http://") {
        Some(rest) => from_slash(rest),
        None => match after_prefix(target, "https://") {
            Some(rest) => from_slash(rest),
            None => target,
        },
    }
}

/// The path that a target names: without a scheme and a host (RFC 9112, section 3.2.2), and without one slash at the end.
#[tactic(auto, unfolding(crate::specs::Path::without_slash))]
pub fn path_of(target: &str) -> &str
    ensures { result.now ≡ spec.path_of target.now }
{
    let path = without_host(target);
    path.strip_suffix('/').unwrap_or(path)
}

/// What stands before and behind the last slash of a path. Nothing stands before it where there is none.
#[tactic(auto, unfolding(crate::specs::Path::parent, crate::specs::Path::last_segment))]
pub fn cut(path: &str) -> (&str, &str)
    ensures before { result.0.now ≡ spec.parent path.now }
    ensures behind { result.1.now ≡ spec.last_segment path.now }
{
    match path.rsplit_once('/') {
        Some((before, behind)) => (before, behind),
        None => ("", path),
    }
}

/// Whether nothing in a segment is encoded.
fn is_uncoded(segment: &str) -> bool
    ensures { result ≡ true → spec.IsUncoded segment.now }
{
    for byte in segment.as_bytes() {
        if *byte == b'%' {
            return false;
        }
    }
    true
}

/// The text that a segment stands for. `BadPath` where it isn't UTF-8 once it is decoded; `OutOfMemory`, where something is encoded.
#[tactic(auto, unfolding(crate::specs::Path::text_at))]
fn text_at(alloc: Global, segment: &str) -> Result<CowStr<'_, Global>, Fault>
    ensures said { Gives (result_map cow_str_bytes result) (spec.text_at segment.now) }
    ensures memory { spec.IsUncoded segment.now → result ≢ Err Fault.OutOfMemory }
{
    if is_uncoded(segment) {
        return Ok(CowStr::Borrowed(segment));
    }
    match percent_decode_str(segment).decode_utf8(alloc) {
        Ok(text) => Ok(text),
        Err(DecodeError::OutOfMemory) => Err(Fault::OutOfMemory),
        Err(DecodeError::Utf8(_)) => Err(Fault::BadPath),
    }
}

/// `BadPath` where a text is no name: where it hasn't 1 to 255 bytes. Takes no memory.
fn judge(text: &str) -> Result<(), Fault>
    ensures name { OnOk result (spec.is_name text.now ≡ true) }
    ensures other { IfErr result (λ f. (f ≡ Fault.BadPath) × (spec.is_name text.now ≡ false)) }
{
    if text.is_empty() || text.len() > LONGEST_NAME {
        return Err(Fault::BadPath);
    }
    Ok(())
}

/// The application of that name. `BadPath` where it is no name; else `OutOfMemory`.
#[tactic(auto, unfolding(crate::specs::Path::app_of, crate::specs::Path::as_name))]
fn app_of(alloc: Global, text: &str) -> Result<App, Fault>
    ensures said { Gives result (spec.app_of text.now) }
    ensures memory { result ≡ Err Fault.OutOfMemory → IsOk (spec.app_of text.now) }
{
    judge(text)?;
    match App::read(alloc, text) {
        Ok(app) => Ok(app),
        Err(_) => Err(Fault::OutOfMemory),
    }
}

/// The id of that name. `BadPath` where it is no name; else `OutOfMemory`.
#[tactic(auto, unfolding(crate::specs::Path::as_name))]
fn id_of(alloc: Global, text: &str) -> Result<Id, Fault>
    ensures said { Gives result (spec.as_name text.now) }
    ensures memory { result ≡ Err Fault.OutOfMemory → IsOk (spec.as_name text.now) }
{
    judge(text)?;
    match Id::read(alloc, text) {
        Ok(id) => Ok(id),
        Err(_) => Err(Fault::OutOfMemory),
    }
}

/// The application that a segment names. `BadPath` where it names none; `OutOfMemory`, but not in place of that where nothing in the
/// segment is encoded.
#[tactic(auto, unfolding(crate::specs::Path::app_at))]
pub fn app_at(alloc: Global, segment: &str) -> Result<App, Fault>
    ensures said { Gives result (spec.app_at segment.now) }
    ensures memory { spec.IsUncoded segment.now → result ≡ Err Fault.OutOfMemory → IsOk (spec.app_at segment.now) }
{
    let text = text_at(alloc, segment)?;
    app_of(alloc, text.as_str())
}

/// The lease of those names. `BadPath` where one of them is no name, which takes no memory; else `OutOfMemory`.
#[tactic(auto, unfolding(crate::specs::Path::key_of, crate::specs::Path::app_of, crate::specs::Path::as_name))]
fn key_of(alloc: Global, app: &str, id: &str) -> Result<Key, Fault>
    ensures said { Gives result (spec.key_of app.now id.now) }
    ensures memory { result ≡ Err Fault.OutOfMemory → IsOk (spec.key_of app.now id.now) }
{
    judge(app)?;
    judge(id)?;
    let app = app_of(alloc, app)?;
    let id = id_of(alloc, id)?;
    Ok(Key { app, id })
}

/// The last two segments of a path: an application's, and an id's.
fn segments(path: &str) -> (&str, &str)
    ensures app { result.0.now ≡ spec.last_segment (spec.parent path.now) }
    ensures id { result.1.now ≡ spec.last_segment path.now }
{
    let (before, id) = cut(path);
    let (_, app) = cut(before);
    (app, id)
}

/// The lease that the last two segments of a path name. `BadPath` where one of them is no name; `OutOfMemory`, but not in place of
/// that where nothing in the path is encoded.
pub fn key_at(alloc: Global, path: &str) -> Result<Key, Fault>
    ensures said { Gives result (spec.key_at path.now) }
    ensures memory { spec.IsUncoded path.now → result ≡ Err Fault.OutOfMemory → IsOk (spec.key_at path.now) }
{
    let (app, id) = segments(path);
    let app = text_at(alloc, app)?;
    let id = text_at(alloc, id)?;
    key_of(alloc, app.as_str(), id.as_str())
}
