//! What a response told a client, by its text.

use eu_base::read_digits;
use eu_gate::Responded;

/// Where the status of a response stands, behind `HTTP/1.1 ` (RFC 9112, section 4).
const STATUS: usize = 9;

/// Where the text of a response ends at the latest that tells a fault and nothing else.
const SHORT: usize = 256;

/// The status that a response tells. None where that isn't three digits.
fn status_in(response: &[u8]) -> Option<u16> {
    let digits = response.get(STATUS..STATUS + 3)?;
    u16::try_from(read_digits(digits)?).ok()
}

/// The fault that a response tells, where it tells one: its content is that alone.
fn fault_in(response: &[u8]) -> Option<u16> {
    if response.len() > SHORT {
        return None;
    }
    let (_, content) = str::from_utf8(response).ok()?.split_once("\r\n\r\n")?;
    let number = content.strip_prefix("{\"fault\":")?.strip_suffix('}')?;
    number.parse().ok()
}

/// What a response told; none where it begins as no response does.
pub(crate) fn responded(response: &[u8]) -> Option<Responded> {
    let status = status_in(response)?;
    let fault = if status < 400 {
        None
    } else {
        fault_in(response)
    };
    Some(Responded { status, fault })
}
