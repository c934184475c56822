//! In which order a session makes its calls.
ghost use Rattle.std.specs.Prelude.{None};

use eu_base::{Fault, Moment};
use eu_clock::Clock;
use eu_fixtures::Parts;
use eu_http::Policy;
use eu_model::{Answer, Ask, Desk, Reply};
use eu_routes::Routes;
use eu_session::{SessionRoom, serve_session};
use eu_stream::{ReadFault, Sink, Source, WriteFault};
use std::alloc::Global;
use std::cell::RefCell;
use std::test::Fail;

/// Writes a call behind those before.
fn call(calls: &RefCell<String>, word: &str) {
    if let Ok(mut calls) = calls.try_borrow_mut() {
        let _noted = calls.push_str(word);
    }
}

/// Reads from a reader, and notes it.
#[derive(Drop)]
struct NotingReader<'a> {
    calls: &'a RefCell<String>,
    parts: Parts<'a>,
}

impl Source for NotingReader<'_> {
    ghost stream = { λ _. 0 };

    ghost remaining = { λ _. None };

    ghost failed = { λ s. s.parts.has_failed };

    fn read_some(&mut self, buffer: &mut [u8]) -> Result<usize, ReadFault> {
        call(self.calls, "read ");
        self.parts.read_some(buffer)
    }
}

/// Takes what is written, and notes it.
#[derive(Drop)]
struct NotingWriter<'a> {
    calls: &'a RefCell<String>,
}

impl Sink for NotingWriter<'_> {
    ghost use Rattle.std.specs.Prelude.{false};

    ghost stream = { λ _. 0 };

    ghost contents = { λ _. None };

    ghost failed = { λ _. false };

    fn write_some(&mut self, bytes: &[u8]) -> Result<usize, WriteFault> {
        call(self.calls, "write ");
        Ok(bytes.len())
    }

    fn flush(&mut self) -> Result<(), WriteFault> {
        call(self.calls, "flush ");
        Ok(())
    }
}

/// Tells the moment 7, and notes it.
#[derive(Drop)]
struct NotingClock<'a> {
    calls: &'a RefCell<String>,
    moment: Moment,
}

impl Clock for NotingClock<'_> {
    ghost tells = { λ _ _ _. Unit {0} };

    fn now(&mut self) -> Moment {
        call(self.calls, "told ");
        self.moment
    }
}

/// Finds nothing that it is asked for, and notes it.
#[derive(Drop)]
struct NotingDesk<'a> {
    calls: &'a RefCell<String>,
}

impl Desk for NotingDesk<'_> {
    ghost asked = { λ _ _ _ _ _. Unit {0} };

    fn ask(&mut self, _alloc: Global, ask: Ask, _moment: Moment) -> Result<Answer, Fault> {
        drop(ask);
        call(self.calls, "asked ");
        Ok(Answer::Did(Reply::NotFound))
    }
}

/// Serves a session of these two texts, and notes the calls.
fn serve(
    alloc: Global,
    routes: &Routes,
    calls: &RefCell<String>,
    texts: (&[u8], &[u8]),
) -> Result<u32, Fault> {
    let moment = Moment::new(7).ok_or(Fault::BadValue)?;
    let parts = Parts::ending(texts.0, texts.1);
    let mut reader = NotingReader { calls, parts };
    let mut desk = NotingDesk { calls };
    let mut writer = NotingWriter { calls };
    let mut clock = NotingClock { calls, moment };
    match serve_session(
        alloc,
        routes,
        &Policy::open(),
        &mut SessionRoom::new(alloc),
        &mut desk,
        &mut clock,
        &mut reader,
        &mut writer,
    ) {
        Ok(count) => Ok(count),
        Err(fault) => Err(fault.fault()),
    }
}

#[test]
fn calls_come_in_their_order(rt: HostRuntime) -> Result<(), Fail> {
    let alloc = rt.alloc();
    let calls = RefCell::new(String::new(alloc));
    let routes = Routes::new(alloc)?;
    let first = b"PUT /eureka/apps/A/i1 HTTP/1.1\r\nHost: x\r\nContent-Length: 4\r\n\r\nbo";
    let second =
        b"dyPOST /eureka/peerreplication/batch/ HTTP/1.1\r\nHost: x\r\nContent-Length: 109\r\n\r\n{\"replicationList\":[{\"action\":\"Cancel\",\"appName\":\"A\",\"id\":\"i1\"},{\"action\":\"Cancel\",\"appName\":\"A\",\"id\":\"i2\"}]}";
    assert!(rt; serve(alloc, &routes, &calls, (first, second)) == Ok(2));
    assert_eq!(rt;
        calls.into_inner().as_str(),
        "read read told asked write flush told asked asked write flush read "
    );
    Ok(())
}
