//! Lines cut from a text, and the front of one that hasn't ended.
ghost use Rattle.std.specs.Prelude.{◌≡◌, ◌≤◌, ◌<◌, ◌^◌, ◌+◌, ◌++◌, ◌∷◌, ℕ, List, length, IfSome, IfNone, OnOk, OnErr, vec_len};
ghost use Rattle.eu_lines.specs.Lines.{HasNoEnd, IsKept};

use memchr::memchr;
use std::alloc::AllocError;

/// The bytes before the first LF, and those after it; none where there is no LF.
#[inline(always)]
pub fn cut(text: &[u8]) -> Option<(&[u8], &[u8])>
    ensures whole { IfSome result (λ parts. text.now ≡ parts.0.now ++ 10 ∷ parts.1.now) }
    ensures first { IfSome result (λ parts. HasNoEnd parts.0.now) }
    ensures none { IfNone result (HasNoEnd text.now) }
{
    let end = memchr(b'\n', text)?;
    Some((&text[..end], &text[end + 1..]))
}

/// Adds a part of a line to what is kept of it: of a line of more than so many bytes its front alone.
pub fn keep(partial: &mut Vec<u8>, longest: usize, part: &[u8]) -> Result<(), AllocError>
    requires { longest < 2 ^ 62 }
    ensures ok { OnOk result ((line : List ℕ) → IsKept longest partial.old.items line → IsKept longest partial.new.items (line ++ part.now)) }
    ensures few { vec_len partial.old ≤ longest + 1 → vec_len partial.new ≤ longest + 1 }
    ensures err { OnErr result (partial.new.items ≡ partial.old.items) }
{
    let room = (longest + 1).saturating_sub(partial.len());
    partial.extend_from_slice(&part[..part.len().min(room)])
}
