//! Texts, and what they are to be.

/// Whether a text is that of the pattern. A `*` there stands for anything; there are two at most.
pub fn fits(text: &str, pattern: &str) -> bool {
    let Some((front, back)) = pattern.split_once('*') else {
        return text == pattern;
    };
    let (middle, end) = back.split_once('*').unwrap_or(("", back));
    let Some(rest) = text.strip_prefix(front) else {
        return false;
    };
    match rest.strip_suffix(end) {
        Some(rest) => rest.find(middle).is_some(),
        None => false,
    }
}

/// Whether each of these parts stands in a text, or each doesn't.
pub fn has_each(text: &str, parts: &[&str], wanted: bool) -> bool {
    for part in parts {
        if text.find(*part).is_some() != wanted {
            return false;
        }
    }
    true
}
