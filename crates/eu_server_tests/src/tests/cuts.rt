//! Requests whose lines end with a bare LF, each in two writes: a server answers them at their last byte.
use crate::tests::client::Step;
use crate::tests::servers::{Way, plan, plays};
use eu_fixtures::{BAD_CHUNK, BAD_HEAD, LAST_MISSING};
use std::alloc::{AllocError, Global};
use std::test::Fail;

/// Requests up to the byte at which they are answered, with the answers.
const REQUESTS: [(&str, &str); 5] = [
    (
        "PUT /eureka/apps/A/zz HTTP/1.1\nHost: x\nConnection: close\n\n",
        LAST_MISSING,
    ),
    ("PUT /eureka/apps/A/zz HTTP/1.1\n\n", BAD_HEAD),
    (
        "PUT /eureka/apps/A/zz HTTP/1.1\nHost: x\nTransfer-Encoding: chunked\n\n2\n",
        BAD_CHUNK,
    ),
    (
        "PUT /eureka/apps/A/zz HTTP/1.1\nHost: x\nConnection: close\nTransfer-Encoding: chunked\n\n0\r\nX: y\n\n",
        LAST_MISSING,
    ),
    (
        "PUT /eureka/apps/A/zz HTTP/1.1\nHost: x\nTransfer-Encoding: chunked\n\n0\r\nX : y\n\n",
        BAD_CHUNK,
    ),
];

/// Does that by one cut of a request after another.
fn push_cuts(
    steps: &mut Vec<Step<'static>>,
    request: &'static str,
    answer: &'static str,
) -> Result<(), AllocError> {
    for cut in 1..request.len() {
        let (first, second) = request.split_at_checked(cut).unwrap_or(("", ""));
        steps.push(Step::Cut(first, second, answer))?;
    }
    Ok(())
}

/// All of them.
fn cuts(alloc: Global) -> Result<Vec<Step<'static>>, AllocError> {
    let mut steps = Vec::new(alloc);
    for (request, answer) in &REQUESTS {
        push_cuts(&mut steps, request, answer)?;
    }
    Ok(steps)
}

/// A client waits for less time than the server.
#[test]
fn requests_are_answered_at_their_last_byte(rt: HostRuntime) -> Result<(), Fail> {
    let plan = plan(325, 2, (40_000, 1_000, 100, 65_536))?;
    let steps = cuts(rt.alloc())?;
    assert!(rt;
        steps.len() == 325 && plays(&rt, rt.alloc(), &plan, Way::Served, steps.as_slice())?
    );
    Ok(())
}
