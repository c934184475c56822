//! Values of fields that are lists (RFC 9110, section 5.6.1).
ghost use Rattle.std.specs.Prelude.{◌≡◌, ◌++◌, ◌∷◌, reverse, IfSome, IfNone};
ghost use Rattle.httparse.specs.Ascii.{comma};
ghost use Rattle.httparse.specs.Grammar.{skip_ows, trim_ows};
ghost use Rattle.eu_framing.specs.Fields.{has_member};
ghost use Rattle.eu_framing.specs.Lists.{HasNoComma};

use crate::fields::is_same_text;
use httparse::is_space_or_tab;

/// The text without the white space before it.
fn trim_front(text: &[u8]) -> &[u8]
    ensures { result.now ≡ skip_ows text.now }
{
    let mut rest = text;
    'bytes: while let [first, behind @ ..] = rest
        && is_space_or_tab(*first)
    {
        rest = behind;
    }
    rest
}

/// The text without the white space behind it.
fn trim_back(text: &[u8]) -> &[u8]
    ensures { result.now ≡ reverse (skip_ows (reverse text.now)) }
{
    let mut rest = text;
    'bytes: while let [before @ .., last] = rest
        && is_space_or_tab(*last)
    {
        rest = before;
    }
    rest
}

/// The text without the white space around it.
fn trim(text: &[u8]) -> &[u8]
    ensures { result.now ≡ trim_ows text.now }
{
    trim_back(trim_front(text))
}

/// The text before the first comma, and the text behind it; none where there is no comma.
fn cut(text: &[u8]) -> Option<(&[u8], &[u8])>
    ensures whole { IfSome result (λ parts. text.now ≡ parts.0.now ++ comma ∷ parts.1.now) }
    ensures first { IfSome result (λ parts. HasNoComma parts.0.now) }
    ensures none { IfNone result (HasNoComma text.now) }
{
    for (i, byte) in text.iter().enumerate() {
        if *byte == b',' {
            return Some((&text[..i], &text[i + 1..]));
        }
    }
    None
}

/// Whether the list has that member, whatever the case of its ASCII letters.
pub fn has_member(list: &[u8], name: &[u8]) -> bool
    ensures { result ≡ has_member list.now name.now }
{
    let mut rest = list;
    'members: while let Some((member, behind)) = cut(rest) {
        if is_same_text(trim(member), name) {
            return true;
        }
        rest = behind;
    }
    is_same_text(trim(rest), name)
}
