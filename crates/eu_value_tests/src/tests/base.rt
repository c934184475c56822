//! Values from Eureka's own names and from the limits of each type.
use eu_base::{
    Action, App, Codes, Config, Fault, Id, Key, Moment, Rest, SharedInstance, Stamp, Status, Task,
};
use eu_fixtures::{Told, cut, first_wrong, instance, key, key_of, moment, number_of};
use serde_json::Value;
use std::alloc::{AllocError, Global};

/// Names. What is read and its copy are told of `app TEXT` and of `id TEXT`, and of `apps N` and of `ids N` how long a name of so many letters is. Of
/// `keys APP/ID APP/ID`, `app-order` and `id-order` it is told whether the first is less than the second, greater, and the same.
#[derive(Drop)]
pub struct Names;

fn tell_app(alloc: Global, text: &str, out: &mut String) -> Result<(), Fault> {
    let app = App::read(alloc, text)?;
    let copy = app.copy(alloc)?;
    Ok(write!(out, "{} {}", app.as_str(), copy.as_str())?)
}

fn tell_id(alloc: Global, text: &str, out: &mut String) -> Result<(), Fault> {
    let id = Id::read(alloc, text)?;
    let copy = id.copy(alloc)?;
    Ok(write!(out, "{} {}", id.as_str(), copy.as_str())?)
}

/// As many letters.
fn letters(alloc: Global, count: u64) -> Result<String, AllocError> {
    let mut text = String::new(alloc);
    for _ in 0..count {
        text.push_str("a")?;
    }
    Ok(text)
}

fn tell_app_length(alloc: Global, count: u64, out: &mut String) -> Result<(), Fault> {
    let text = letters(alloc, count)?;
    let app = App::read(alloc, text.as_str())?;
    Ok(write!(out, "{}", app.as_str().len())?)
}

fn tell_id_length(alloc: Global, count: u64, out: &mut String) -> Result<(), Fault> {
    let text = letters(alloc, count)?;
    let id = Id::read(alloc, text.as_str())?;
    Ok(write!(out, "{}", id.as_str().len())?)
}

/// Tells how two values stand to each other.
fn tell_order<T: PartialOrd>(one: &T, other: &T, out: &mut String) -> Result<(), AllocError> {
    let (less, greater, same) = (one < other, one > other, one == other);
    write!(out, "{less} {greater} {same}")
}

fn read_key(alloc: Global, text: &str) -> Result<Key, Fault> {
    let (app, id) = text.split_once('/').ok_or(Fault::BadValue)?;
    key_of(alloc, app, id)
}

fn tell_keys(alloc: Global, text: &str, out: &mut String) -> Result<(), Fault> {
    let (one, other) = cut(text);
    let one = read_key(alloc, one)?;
    let other = read_key(alloc, other)?;
    Ok(tell_order(&one, &other, out)?)
}

fn tell_key_copy(alloc: Global, text: &str, out: &mut String) -> Result<(), Fault> {
    let key = read_key(alloc, text)?;
    let copy = key.copy(alloc)?;
    Ok(tell_order(&key, &copy, out)?)
}

fn tell_apps(alloc: Global, text: &str, out: &mut String) -> Result<(), Fault> {
    let (one, other) = cut(text);
    let one = App::read(alloc, one)?;
    let other = App::read(alloc, other)?;
    Ok(tell_order(&one, &other, out)?)
}

fn tell_ids(alloc: Global, text: &str, out: &mut String) -> Result<(), Fault> {
    let (one, other) = cut(text);
    let one = Id::read(alloc, one)?;
    let other = Id::read(alloc, other)?;
    Ok(tell_order(&one, &other, out)?)
}

impl Told for Names {
    fn tell(&mut self, alloc: Global, said: &str, out: &mut String) -> Result<(), Fault> {
        let (word, text) = cut(said);
        match word {
            "app" => tell_app(alloc, text, out),
            "id" => tell_id(alloc, text, out),
            "apps" => tell_app_length(alloc, number_of(text)?, out),
            "ids" => tell_id_length(alloc, number_of(text)?, out),
            "keys" => tell_keys(alloc, text, out),
            "key-copy" => tell_key_copy(alloc, text, out),
            "app-order" => tell_apps(alloc, text, out),
            "id-order" => tell_ids(alloc, text, out),
            _ => Err(Fault::BadValue),
        }
    }
}

const APPLICATIONS: &str = "app my-aPp_é1 = MY-APP_é1 MY-APP_é1
app  = Empty
apps 255 = 255
apps 256 = TooLong";

const IDS: &str = "id Host:a:8080 = Host:a:8080 Host:a:8080
id  = Empty
ids 256 = TooLong";

const ORDERS: &str = "keys a/z B/Y = true false false
keys B/Y b/a = true false false
key-copy b/a = false false true
app-order a B = true false false
id-order z Y = false true false";

#[test]
fn applications_are_read_in_capitals(rt: HostRuntime) {
    assert_eq!(rt; first_wrong(rt.alloc(), &mut Names, APPLICATIONS), None);
}

#[test]
fn ids_are_read_as_given(rt: HostRuntime) {
    assert_eq!(rt; first_wrong(rt.alloc(), &mut Names, IDS), None);
}

#[test]
fn keys_are_ordered_by_application_first(rt: HostRuntime) {
    assert_eq!(rt; first_wrong(rt.alloc(), &mut Names, ORDERS), None);
}

#[test]
fn statuses_have_eurekas_names(rt: HostRuntime) {
    for (status, name) in [
        (Status::Up, "UP"),
        (Status::Down, "DOWN"),
        (Status::Starting, "STARTING"),
        (Status::OutOfService, "OUT_OF_SERVICE"),
        (Status::Unknown, "UNKNOWN"),
    ] {
        assert!(rt; status.name() == name);
        assert!(rt; Status::read(name.as_bytes()) == Some(status));
    }
    assert!(rt; Status::read(b"up").is_none());
    assert!(rt; Status::read(b"").is_none());
}

#[test]
fn moments_and_stamps_have_limits(rt: HostRuntime) {
    assert_eq!(rt;
        Moment::new(4_611_686_018_427_387_904).map(|moment| moment.ms()),
        Some(4_611_686_018_427_387_904)
    );
    assert!(rt; Moment::new(4_611_686_018_427_387_905).is_none());
    assert_eq!(rt;
        Stamp::new(9_223_372_036_854_775_807).map(|stamp| stamp.value()),
        Some(9_223_372_036_854_775_807)
    );
    assert!(rt; Stamp::new(9_223_372_036_854_775_808).is_none());
}

/// Whether they are settings, and hold as they are given.
fn are_held(preservation: bool, percent: u32, interval: u32, evict_ms: u32) -> Result<bool, Fault> {
    let config = Config::new(preservation, percent, interval, evict_ms)?;
    Ok(
        config.preservation == preservation
            && config.percent.value() == percent
            && config.interval.secs() == interval
            && config.evict_ms == evict_ms,
    )
}

#[test]
fn settings_have_limits(rt: HostRuntime) {
    for (preservation, percent, interval, evict_ms, held) in [
        (true, 85, 30, 60_000, Ok(true)),
        (false, 0, 1, 0, Ok(true)),
        (false, 100, 3600, u32::MAX, Ok(true)),
        (true, 101, 0, 0, Err(Fault::BadPercent)),
        (true, 100, 0, 0, Err(Fault::BadInterval)),
        (true, 100, 3601, 0, Err(Fault::BadInterval)),
    ] {
        let told = are_held(preservation, percent, interval, evict_ms);
        assert!(rt; told == held, "at {percent}, {interval}, {evict_ms}");
    }
}

/// Values that are compared or shared. It is told whether two of them are the same: `instances STATUS STATUS` by their overridden status, `tasks MS MS` by when they were
/// queued, `codes N N` by their last code. `share STATUS` tells what shares an instance, and whether it is the same.
#[derive(Drop)]
pub struct Plain;

fn overridden(alloc: Global, status: &str) -> Result<SharedInstance, Fault> {
    let status = Status::read(status.as_bytes()).ok_or(Fault::BadValue)?;
    let mut instance = instance(alloc, "i1", 7, 90)?;
    instance.set_statuses(Status::Starting, status);
    Ok(instance)
}

/// Tells the name, the statuses, the numbers and how many other members an instance has.
fn tell_instance(alloc: Global, instance: &SharedInstance, out: &mut String) -> Result<(), Fault> {
    write!(
        out,
        "{} {} {} {}",
        instance.key().app.as_str(),
        instance.key().id.as_str(),
        instance.status().name(),
        instance.overridden().name(),
    )?;
    write!(
        out,
        " {} {} {}",
        instance.last_dirty().value(),
        instance.secs().secs(),
        instance.interval().secs(),
    )?;
    let members = instance.rest().to_members(alloc)?;
    Ok(write!(out, " {}", members.len())?)
}

fn tell_shared(alloc: Global, status: &str, out: &mut String) -> Result<(), Fault> {
    let instance = overridden(alloc, status)?;
    let shared = instance.share()?;
    tell_instance(alloc, &shared, out)?;
    Ok(write!(out, " {}", shared.same(&instance))?)
}

fn tell_instances(alloc: Global, text: &str, out: &mut String) -> Result<(), Fault> {
    let (one, other) = cut(text);
    let one = overridden(alloc, one)?;
    let other = overridden(alloc, other)?;
    Ok(write!(out, "{}", one.same(&other))?)
}

fn task(alloc: Global, queued: &str) -> Result<Task, Fault> {
    let queued = moment(number_of(queued)?)?;
    let key = key(alloc, "i1")?;
    let instance = overridden(alloc, "UP")?;
    Ok(Task {
        action: Action::StatusUpdate,
        key,
        status: Some(Status::Up),
        instance: Some(instance),
        queued,
    })
}

fn tell_tasks(alloc: Global, text: &str, out: &mut String) -> Result<(), Fault> {
    let (one, other) = cut(text);
    let one = task(alloc, one)?;
    let other = task(alloc, other)?;
    Ok(write!(out, "{}", one.same(&other))?)
}

fn codes(alloc: Global, last: &str) -> Result<Codes, Fault> {
    let last = u16::try_from(number_of(last)?).map_err(|_| Fault::BadValue)?;
    Ok(Codes::new(vec![in alloc; 200, last]?))
}

fn tell_codes(alloc: Global, text: &str, out: &mut String) -> Result<(), Fault> {
    let (one, other) = cut(text);
    let one = codes(alloc, one)?;
    let other = codes(alloc, other)?;
    Ok(write!(out, "{}", one.same(&other))?)
}

impl Told for Plain {
    fn tell(&mut self, alloc: Global, said: &str, out: &mut String) -> Result<(), Fault> {
        let (word, text) = cut(said);
        match word {
            "share" => tell_shared(alloc, text, out),
            "instances" => tell_instances(alloc, text, out),
            "tasks" => tell_tasks(alloc, text, out),
            "codes" => tell_codes(alloc, text, out),
            _ => Err(Fault::BadValue),
        }
    }
}

const PLAIN: &str = "share OUT_OF_SERVICE = A i1 STARTING OUT_OF_SERVICE 7 90 30 3 true
instances DOWN DOWN = true
instances DOWN UNKNOWN = false
tasks 5 5 = true
tasks 5 6 = false
codes 404 404 = true
codes 404 409 = false";

#[test]
fn values_are_shared_and_compared(rt: HostRuntime) {
    assert_eq!(rt; first_wrong(rt.alloc(), &mut Plain, PLAIN), None);
}

/// Whether a fault is told so.
fn is_told(alloc: Global, fault: Fault, text: &str) -> Result<bool, AllocError> {
    let told = format!(in alloc; "{}", fault)?;
    Ok(told.as_str() == text)
}

#[test]
fn faults_have_numbers(rt: HostRuntime) {
    for (fault, number) in [
        (Fault::Empty, 1),
        (Fault::NoPeer, 15),
        (Fault::NotJson, 20),
        (Fault::BadEncoding, 42),
    ] {
        assert_eq!(rt; fault.number(), number);
    }
    assert!(rt; is_told(rt.alloc(), Fault::Full, "the registry is full") == Ok(true));
}

/// Whether a text is JSON, and if so, whether it is a rest.
fn is_rest(alloc: Global, text: &str) -> Option<bool> {
    match Value::from_str(alloc, text) {
        Ok(value) => Some(Rest::new(alloc, value).ok()?.is_some()),
        Err(_) => None,
    }
}

#[test]
fn a_rest_is_an_object_of_whole_numbers(rt: HostRuntime) {
    let cases = [
        (
            r#"{"port":{"$":8080,"@enabled":"true"},"n":-9223372036854775808}"#,
            true,
        ),
        (
            r#"{"n":18446744073709551615,"none":null,"list":[1,[2,{"a":3}]]}"#,
            true,
        ),
        (r#"{"n":18446744073709551616}"#, false),
        (r#"{"list":[1,[2,{"a":1.5}]]}"#, false),
        (r#"{"n":1e2}"#, false),
        ("[1]", false),
        ("null", false),
    ];
    for (text, good) in cases {
        assert!(rt; is_rest(rt.alloc(), text) == Some(good), "at {text}");
    }
}

/// The rest of a text, or of the host that `host ` stands before. None where it isn't JSON, or no object of whole numbers.
fn rest(alloc: Global, text: &str) -> Option<Rest> {
    if let Some(host) = text.strip_prefix("host ") {
        return Rest::of_host(alloc, host).ok();
    }
    let value = Value::from_str(alloc, text).ok()?;
    Rest::new(alloc, value).ok()?
}

/// Whether two texts are the same rest, and the other way round, if they are rests.
fn compared(alloc: Global, one: &str, other: &str) -> Option<(bool, bool)> {
    let one = rest(alloc, one)?;
    let other = rest(alloc, other)?;
    Some((one.same(&other), other.same(&one)))
}

/// What a host's rest holds.
const HOST: &str = r#"{"hostName":"h","ipAddr":"0.0.0.0","dataCenterInfo":{"name":"MyOwn"}}"#;

#[test]
fn rests_are_compared(rt: HostRuntime) {
    let cases = [
        ("{}", "{ }", true),
        ("{}", r#"{"n":1}"#, false),
        (r#"{"n":1}"#, r#"{"n":-1}"#, false),
        (r#"{"n":1}"#, r#"{"n":"1"}"#, false),
        (r#"{"n":1}"#, r#"{"m":1}"#, false),
        (
            r#"{"a":[1,-2,{}],"b":null}"#,
            r#"{"b":null,"a":[1,-2,{}]}"#,
            true,
        ),
        (r#"{"a":[1,-2,{}]}"#, r#"{"a":[1,-2]}"#, false),
        (r#"{"a":[true,false]}"#, r#"{"a":[false,true]}"#, false),
        (HOST, "host h", true),
        (HOST, "host i", false),
        ("host h", "host i", false),
    ];
    for (one, other, same) in cases {
        let told = compared(rt.alloc(), one, other);
        assert!(rt; told == Some((same, same)), "at {one} and {other}");
    }
}
