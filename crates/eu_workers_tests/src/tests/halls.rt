//! Each public function on its way, with values that were worked out by hand.

use eu_hall::{
    Arriving, Awaited, Hall, Happened, Leaving, MOST_KEPT, PATIENCE, Phase, Sent, Unsent,
};
use eu_stream::{Sink, Source};
use std::alloc::Global;
use std::io::{self, ErrorKind, Read, Write};
use std::test::Fail;

/// What a peer of a test does when it is read from, or written to.
#[derive(Clone, Copy, Drop)]
enum Step {
    /// It gives or takes so many bytes, where there are so many.
    Moves(usize),
    /// It fails.
    Fails(ErrorKind),
}

/// A peer of a test. After its last step it would wait.
#[derive(Drop)]
struct Peer<'a> {
    steps: &'a [Step],
    step: usize,
    bytes: Vec<u8>,
}

impl<'a> Peer<'a> {
    /// One that does these, one after another.
    fn new(alloc: Global, steps: &'a [Step]) -> Peer<'a> {
        Peer {
            steps,
            step: 0,
            bytes: Vec::new(alloc),
        }
    }

    /// How many bytes the next step moves.
    fn next(&mut self) -> io::Result<usize> {
        let step = self.steps.get(self.step).copied();
        self.step = self.step.saturating_add(1);
        match step {
            Some(Step::Moves(count)) => Ok(count),
            Some(Step::Fails(kind)) => Err(io::Error::from(kind)),
            None => Err(io::Error::from(ErrorKind::WouldBlock)),
        }
    }
}

impl Read for Peer<'_> {
    fn read(&mut self, buffer: &mut [u8]) -> io::Result<usize> {
        let count = self.next()?.min(buffer.len());
        buffer[..count].fill(b'a');
        Ok(count)
    }
}

impl Write for Peer<'_> {
    fn write(&mut self, bytes: &[u8]) -> io::Result<usize> {
        let count = self.next()?.min(bytes.len());
        match self.bytes.extend_from_slice(&bytes[..count]) {
            Ok(()) => Ok(count),
            Err(_) => Err(io::Error::from(ErrorKind::OutOfMemory)),
        }
    }

    fn flush(&mut self) -> io::Result<()> {
        Ok(())
    }
}

/// A phase with its beginning and its end.
fn awaited(phase: Phase, since: u64, until: u64) -> Awaited {
    Awaited {
        phase,
        since,
        until,
    }
}

#[test]
fn a_deadline_is_that_of_its_phase(rt: HostRuntime) {
    let steps = [
        (Phase::Idle, Happened::Moved, 2_000, 1_000, 91_000),
        (Phase::Asking, Happened::Moved, 3_000, 3_000, 13_000),
        (Phase::Asking, Happened::Moved, 9_000, 3_000, 13_000),
        (Phase::Answering, Happened::Moved, 10_000, 10_000, 20_000),
        (Phase::Answering, Happened::Moved, 19_000, 10_000, 29_000),
        (Phase::Answering, Happened::Nothing, 25_000, 10_000, 29_000),
        (Phase::Answering, Happened::Moved, 65_000, 10_000, 70_000),
        (Phase::Answering, Happened::Answered, 66_000, 66_000, 76_000),
        (Phase::Lingering, Happened::Moved, 67_000, 67_000, 68_000),
        (Phase::Lingering, Happened::Moved, 67_900, 67_000, 68_000),
    ];
    let mut now_awaited = Awaited::begin(PATIENCE, Phase::Idle, 1_000);
    for (phase, happened, now, since, until) in steps {
        now_awaited = now_awaited.next(PATIENCE, phase, happened, now);
        assert_eq!(rt; now_awaited, awaited(phase, since, until), "at {now}");
    }
    assert!(rt; !now_awaited.is_late(67_999));
    assert!(rt; now_awaited.is_late(68_000));
    assert_eq!(rt; PATIENCE.limit(Phase::Answering), 10_000);
    let last = Awaited::begin(PATIENCE, Phase::Idle, u64::MAX - 1);
    assert_eq!(rt; last.until, u64::MAX);
}

#[test]
fn guests_enter_are_called_and_come_back(rt: HostRuntime) -> Result<(), Fail> {
    let idle = awaited(Phase::Idle, 0, 90);
    let asking = awaited(Phase::Asking, 5, 15);
    let mut hall: Hall<u32> = Hall::new(rt.alloc(), 2, 10)?;
    assert!(rt; hall.is_empty());
    assert_eq!(rt; hall.enter(7, idle), Ok(0));
    assert_eq!(rt; hall.enter(8, idle), Ok(1));
    assert_eq!(rt; hall.enter(9, idle), Err(9));
    assert_eq!(rt; hall.call(0), Some((7, idle)));
    assert_eq!(rt; hall.call(0), None);
    assert_eq!(rt; hall.come_back(1, 7, asking, 0), Err(7));
    assert_eq!(rt; hall.come_back(0, 7, asking, 6), Ok(()));
    assert_eq!(rt; hall.call(1), Some((8, idle)));
    assert_eq!(rt; (hall.len(), hall.bytes()), (2, 6));
    assert_eq!(rt; hall.come_back(1, 8, idle, 5), Err(8));
    assert_eq!(rt; hall.come_back(1, 8, idle, 4), Ok(()));
    assert_eq!(rt; (hall.len(), hall.bytes()), (2, 10));
    assert!(rt; hall.leave(0));
    assert!(rt; !hall.leave(0));
    assert_eq!(rt; (hall.len(), hall.bytes()), (1, 4));
    assert_eq!(rt; hall.enter(9, idle), Ok(0));
    Ok(())
}

/// Who calls by the key of a place that was used again has the guest that stands there now, and nothing of what is awaited of it changes.
#[test]
fn a_place_that_is_used_again_is_its_new_guests(rt: HostRuntime) -> Result<(), Fail> {
    let mut hall: Hall<u32> = Hall::new(rt.alloc(), 1, 100)?;
    assert_eq!(rt; hall.enter(1, awaited(Phase::Idle, 0, 50)), Ok(0));
    assert!(rt; hall.call(0).is_some());
    assert!(rt; hall.leave(0));
    assert!(rt; hall.call(0).is_none());
    assert_eq!(rt; hall.enter(2, awaited(Phase::Asking, 7, 90)), Ok(0));
    assert_eq!(rt; hall.call(0), Some((2, awaited(Phase::Asking, 7, 90))));
    assert!(rt;
        hall.come_back(0, 2, awaited(Phase::Asking, 7, 90), 10)
            .is_ok()
    );
    assert_eq!(rt; hall.late(0, 89, false), None);
    assert_eq!(rt; hall.late(0, 90, false), Some(0));
    Ok(())
}

#[test]
fn a_sweep_finds_those_that_are_late(rt: HostRuntime) -> Result<(), Fail> {
    let mut hall: Hall<u32> = Hall::new(rt.alloc(), 4, 0)?;
    assert_eq!(rt; hall.enter(1, awaited(Phase::Asking, 0, 50)), Ok(0));
    assert_eq!(rt; hall.enter(2, awaited(Phase::Idle, 0, 90)), Ok(1));
    assert_eq!(rt; hall.enter(3, awaited(Phase::Lingering, 0, 10)), Ok(2));
    assert_eq!(rt; hall.late(0, 9, false), None);
    assert_eq!(rt; hall.late(0, 9, true), Some(1));
    assert_eq!(rt; hall.late(2, 9, true), None);
    assert_eq!(rt; hall.late(0, 50, false), Some(0));
    assert_eq!(rt; hall.late(1, 50, false), Some(2));
    assert!(rt; !hall.is_late(0, 49));
    assert!(rt; hall.is_late(0, 50));
    assert!(rt; !hall.is_late(3, 1_000));
    assert!(rt; hall.call(0).is_some());
    assert!(rt; !hall.is_late(0, 50));
    assert_eq!(rt; hall.late(0, 50, false), Some(2));
    Ok(())
}

#[test]
fn what_is_unsent_goes_as_far_as_its_peer_takes_it(rt: HostRuntime) -> Result<(), Fail> {
    let steps = [
        Step::Moves(2),
        Step::Fails(ErrorKind::Interrupted),
        Step::Moves(1),
        Step::Fails(ErrorKind::WouldBlock),
        Step::Fails(ErrorKind::BrokenPipe),
        Step::Moves(0),
        Step::Moves(100),
    ];
    let mut peer = Peer::new(rt.alloc(), &steps);
    let mut unsent = Unsent::new(rt.alloc());
    assert_eq!(rt; unsent.write_some(b"hello"), Ok(5));
    assert!(rt; unsent.memory() >= 5);
    assert_eq!(rt; unsent.send(&mut peer), Ok(Sent::Waits));
    assert_eq!(rt; peer.bytes.as_slice(), b"hel".as_slice());
    assert_eq!(rt; unsent.len(), 2);
    assert_eq!(rt; unsent.write_some(b" you"), Ok(4));
    assert!(rt; unsent.flush().is_ok());
    assert!(rt; unsent.send(&mut peer).is_err());
    assert!(rt; unsent.send(&mut peer).is_err());
    assert_eq!(rt; unsent.len(), 6);
    assert_eq!(rt; unsent.send(&mut peer), Ok(Sent::All));
    assert_eq!(rt; peer.bytes.as_slice(), b"hello you".as_slice());
    assert!(rt; unsent.is_empty());
    assert!(rt; unsent.memory() <= MOST_KEPT);
    assert!(rt; !unsent.has_failed());
    Ok(())
}

#[test]
fn a_piece_of_what_is_unsent_goes_at_once(rt: HostRuntime) -> Result<(), Fail> {
    let steps = [
        Step::Moves(65_535),
        Step::Moves(100),
        Step::Fails(ErrorKind::WouldBlock),
        Step::Moves(100),
    ];
    let mut peer = Peer::new(rt.alloc(), &steps);
    let mut unsent = Unsent::new(rt.alloc());
    let response = "a".repeat(rt.alloc(), 65_538)?;
    assert_eq!(rt; unsent.write_some(response.as_bytes()), Ok(65_538));
    assert_eq!(rt; unsent.send_piece(&mut peer), Ok(Sent::All));
    assert_eq!(rt; unsent.len(), 2);
    assert_eq!(rt; unsent.send_piece(&mut peer), Ok(Sent::Waits));
    assert_eq!(rt; unsent.len(), 2);
    assert_eq!(rt; unsent.send_piece(&mut peer), Ok(Sent::All));
    assert!(rt; unsent.is_empty());
    assert_eq!(rt; peer.bytes.len(), 65_538);
    Ok(())
}

#[test]
fn a_read_that_would_wait_is_told_from_one_that_failed(rt: HostRuntime) -> Result<(), Fail> {
    let steps = [
        Step::Moves(3),
        Step::Fails(ErrorKind::Interrupted),
        Step::Moves(4),
        Step::Fails(ErrorKind::WouldBlock),
        Step::Fails(ErrorKind::ConnectionReset),
    ];
    let mut peer = Peer::new(rt.alloc(), &steps);
    let mut buffer = [0u8; 4];
    let mut arriving = Arriving::new(&mut peer);
    assert_eq!(rt; arriving.read_some(&mut buffer), Ok(3));
    assert!(rt; arriving.was_short());
    assert_eq!(rt; arriving.read_some(&mut buffer), Ok(4));
    assert!(rt; !arriving.was_short());
    assert!(rt; !arriving.waits());
    assert!(rt; arriving.read_some(&mut buffer).is_err());
    assert!(rt; arriving.waits());
    assert!(rt; !arriving.has_failed());
    assert!(rt; arriving.read_some(&mut buffer).is_err());
    assert!(rt; arriving.has_failed());
    Ok(())
}

#[test]
fn a_peer_that_is_always_interrupted_has_failed(rt: HostRuntime) -> Result<(), Fail> {
    let steps = [Step::Fails(ErrorKind::Interrupted); 16];
    let mut peer = Peer::new(rt.alloc(), &steps);
    let mut unsent = Unsent::new(rt.alloc());
    assert_eq!(rt; unsent.write_some(b"a"), Ok(1));
    let mut leaving = Leaving::new(&mut peer);
    assert!(rt; unsent.send_to(&mut leaving).is_err());
    assert!(rt; leaving.has_failed());
    assert!(rt; !leaving.waits());
    assert_eq!(rt; unsent.send_to(&mut leaving), Ok(Sent::Waits));
    assert!(rt; leaving.waits());
    assert_eq!(rt; unsent.len(), 1);
    Ok(())
}
