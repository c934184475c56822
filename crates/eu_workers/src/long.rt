//! Requests that take long.
ghost use Rattle.std.specs.Prelude.{◌≡◌, MatchOption, None, Some};
ghost use Rattle.std.specs.List.{position_or_len};
ghost use Rattle.eu_workers.specs.Long.{ends_path, is_other, is_slash};
ghost use Rattle.eu_workers.specs.Long as spec;

/// The path under which the registry is listed, whole or by application.
const LISTING: &[u8] = b"GET /eureka/apps";

/// The other such path.
const LISTING_2: &[u8] = b"GET /eureka/v2/apps";

/// The path of a peer's batch.
const BATCH: &[u8] = b"POST /eureka/peerreplication";

/// The other such path.
const BATCH_2: &[u8] = b"POST /eureka/v2/peerreplication";

/// What a heartbeat begins by, and whatever else is put under a path.
const PUT: &[u8] = b"PUT /";

/// What a request with a body begins by.
const POST: &[u8] = b"POST ";

/// How many bytes a read gives at most.
const READ: usize = 4_096;

/// Where the first blank or `?` stands, which ends a path. The length where there is none.
#[tactic(auto, using(crate::proofs::PlaceLemmas::place_is, crate::proofs::PlaceLemmas::place_none))]
fn place_of_end(bytes: &[u8]) -> usize
    ensures { result ≡ position_or_len ends_path bytes.now }
{
    for (i, byte) in bytes.iter().enumerate() {
        if *byte == b' ' || *byte == b'?' {
            return i;
        }
    }
    bytes.len()
}

/// Where the first slash stands. The length where there is none.
#[tactic(auto, using(crate::proofs::PlaceLemmas::place_is, crate::proofs::PlaceLemmas::place_none))]
fn place_of_slash(bytes: &[u8]) -> usize
    ensures { result ≡ position_or_len is_slash bytes.now }
{
    for (i, byte) in bytes.iter().enumerate() {
        if *byte == b'/' {
            return i;
        }
    }
    bytes.len()
}

/// Where the first byte stands that is no slash. The length where there is none.
#[tactic(auto, using(crate::proofs::PlaceLemmas::place_is, crate::proofs::PlaceLemmas::place_none))]
fn place_of_other(bytes: &[u8]) -> usize
    ensures { result ≡ position_or_len is_other bytes.now }
{
    for (i, byte) in bytes.iter().enumerate() {
        if *byte != b'/' {
            return i;
        }
    }
    bytes.len()
}

/// What stands in a path behind its first slash, and behind those that follow that one.
#[tactic(auto, using(crate::proofs::PlaceLemmas::place_within))]
fn behind_slashes(path: &[u8]) -> &[u8]
    ensures { result.now ≡ spec.behind_slashes path.now }
{
    let rest = &path[place_of_slash(path)..];
    &rest[place_of_other(rest)..]
}

/// Whether the rest of a path names no instance: it has one part at most.
#[tactic(auto, using(crate::proofs::PlaceLemmas::place_within))]
fn names_no_instance(rest: &[u8]) -> bool
    ensures { result ≡ spec.names_no_instance rest.now }
{
    let path = &rest[..place_of_end(rest)];
    behind_slashes(behind_slashes(path)).is_empty()
}

/// The first part of the rest of a path: that of an application, where it has one.
#[tactic(auto, using(crate::proofs::PlaceLemmas::place_within))]
fn first_part(rest: &[u8]) -> &[u8]
    ensures { result.now ≡ spec.first_part rest.now }
{
    let part = behind_slashes(&rest[..place_of_end(rest)]);
    &part[..place_of_slash(part)]
}

/// What stands behind that path, where these bytes begin by it, and where all of the path that they name is there.
fn behind<'a>(bytes: &'a [u8], path: &[u8]) -> Option<&'a [u8]>
    ensures { MatchOption result (spec.behind bytes.now path.now ≡ None) (λ rest. spec.behind bytes.now path.now ≡ Some rest.now) }
{
    if !bytes.starts_with(path) {
        return None;
    }
    let rest = &bytes[path.len()..];
    (place_of_end(rest) < rest.len()).then_some(rest)
}

/// Whether these bytes begin by that path, and go on without naming an instance.
fn lists(bytes: &[u8], path: &[u8]) -> bool
    ensures { result ≡ spec.lists bytes.now path.now }
{
    bytes.starts_with(path) && names_no_instance(&bytes[path.len()..])
}

/// The part of a path that names the application which a request lists that begins so, as it stands there. It is empty where all are listed. None where it
/// lists nothing, or where the path isn't all there.
pub(crate) fn listed(bytes: &[u8]) -> Option<&[u8]>
    ensures { MatchOption result (spec.listed bytes.now ≡ None) (λ part. spec.listed bytes.now ≡ Some part.now) }
{
    let rest = match behind(bytes, LISTING) {
        Some(rest) => rest,
        None => behind(bytes, LISTING_2)?,
    };
    Some(first_part(rest))
}

/// Whether these bytes begin like a request with a body that isn't short: they are at least as many as a read gives.
fn has_long_body(bytes: &[u8]) -> bool
    ensures { result ≡ spec.has_long_body bytes.now }
{
    bytes.starts_with(POST) && bytes.len() >= READ
}

/// Whether these bytes are no more than a front of the method and the path of a listing or a batch, so that it isn't known yet what is asked for.
fn is_front(bytes: &[u8]) -> bool
    ensures { result ≡ spec.is_front bytes.now }
{
    !bytes.is_empty()
        && (LISTING.starts_with(bytes)
            || LISTING_2.starts_with(bytes)
            || BATCH.starts_with(bytes)
            || BATCH_2.starts_with(bytes))
}

/// Whether they begin as few requests do, so that a path is told by a parse alone: by an empty line, or with something else than a path, as a whole address,
/// behind the method.
#[tactic(auto, using(crate::proofs::PlaceLemmas::place_within))]
fn is_unusual(bytes: &[u8]) -> bool
    ensures { result ≡ spec.is_unusual bytes.now }
{
    let behind_method = &bytes[place_of_end(bytes)..];
    match (bytes.first(), behind_method.get(1)) {
        (Some(b'\r' | b'\n'), _) => true,
        (_, Some(byte)) => *byte != b'/',
        _ => false,
    }
}

/// Whether these bytes begin like a request that takes long: a listing, of all or of an application, a peer's batch, or a body that isn't short; or like one
/// of which that isn't known. It only tells who takes the turn: a wrong answer costs time alone. Most requests are heartbeats, which are told at once.
pub(crate) fn is_long(bytes: &[u8]) -> bool
    ensures { result ≡ spec.is_long bytes.now }
{
    if bytes.starts_with(PUT) {
        return false;
    }
    lists(bytes, LISTING)
        || lists(bytes, LISTING_2)
        || bytes.starts_with(BATCH)
        || bytes.starts_with(BATCH_2)
        || has_long_body(bytes)
        || is_front(bytes)
        || is_unusual(bytes)
}
