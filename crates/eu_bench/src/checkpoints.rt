//! Checkpoints of a book that holds many leases.

use eu_base::{App, Config, Fault, Moment, SharedInstance};
use eu_book::Book;
use eu_clock::FirstChooser;
use eu_hash::HashKey;
use eu_json::read_instance;
use eu_model::Command;
use std::alloc::{AllocError, Global};

/// An instance as a client registers it over HTTP, of one of a hundred applications.
fn client(alloc: Global, number: u32, moment: Moment) -> Result<SharedInstance, Fault> {
    let app = number % 100;
    let app = App::read(alloc, format!(in alloc; "A{app}")?.as_str())?;
    let name = app.as_str();
    let text = format!(in alloc;
        r#"{{"instance":{{"instanceId":"host-{number}","hostName":"host-{number}.example.org","app":"{name}","ipAddr":"10.0.0.1","status":"UP","port":{{"$":8080,"@enabled":"true"}},"healthCheckUrl":"http://host-{number}.example.org:8080/health","vipAddress":"a.example.org","dataCenterInfo":{{"@class":"com.netflix.appinfo.InstanceInfo$DefaultDataCenterInfo","name":"MyOwn"}},"metadata":{{"zone":"a"}}}}}}"#
    )?;
    read_instance(alloc, text.as_str(), &app, moment)
}

/// Has a book register a client. The faults are those of `Book::apply`.
fn register(alloc: Global, book: &mut Book, number: u32, moment: Moment) -> Result<(), Fault> {
    let instance = client(alloc, number, moment)?;
    let command = Command::Register {
        instance,
        replicated: false,
    };
    let receipt = book.apply(alloc, 0, command, moment, &mut FirstChooser)?;
    drop(receipt);
    Ok(())
}

/// The same of so many clients.
fn fill(alloc: Global, book: &mut Book, leases: u32) -> Result<(), Fault> {
    let moment = Moment::new(0).ok_or(Fault::BadValue)?;
    for number in 0..leases {
        register(alloc, book, number, moment)?;
    }
    Ok(())
}

/// Has a book begin its journal anew, and lets go of the journal that it was; how many entries that had.
fn renew(alloc: Global, book: &mut Book) -> Result<u64, AllocError> {
    let journal = book.checkpoint(alloc)?;
    let entries = journal.entries.len() as u64;
    drop(journal);
    Ok(entries)
}

/// Fills a book, and has it do that so many times; how many entries the journals had in all.
fn fill_and_renew(alloc: Global, book: &mut Book, leases: u32, times: u32) -> Result<u64, Fault> {
    fill(alloc, book, leases)?;
    let mut entered = 0u64;
    for _ in 0..times {
        entered = entered.saturating_add(renew(alloc, book)?);
    }
    Ok(entered)
}

/// Has a book of so many leases begin its journal anew so many times, and lets go of each journal that it was; how many entries they
/// had in all. `Full` where the leases are more than a registry holds; `OutOfMemory`.
pub fn count_entered(alloc: Global, leases: u32, times: u32) -> Result<u64, Fault> {
    let config = Config::new(true, 85, 30, 60_000)?;
    let mut book = Book::open(alloc, config, 1, 0, HashKey::new(0, 0))?;
    let entered = fill_and_renew(alloc, &mut book, leases, times);
    drop(book);
    entered
}
