//! Instances that are read and written, by bodies as clients send them.
use eu_base::{App, Fault, Moment, SharedInstance, Status};
use eu_fixtures::{LISTED, REGISTRATION, joined, push_each};
use eu_json::{append_application, append_applications, append_held, read_instance};
use eu_model::{Listed, Times};
use std::alloc::{AllocError, Global};

/// Whether that is what is written of an instance, without the moments of a lease.
pub fn is_instance(
    alloc: Global,
    instance: &SharedInstance,
    text: &str,
) -> Result<bool, AllocError> {
    let whole = joined(alloc, &[r#"{"instance":"#, text, "}"])?;
    let mut out = Vec::new(alloc);
    append_held(alloc, &mut out, instance, None)?;
    Ok(out.as_slice() == whole.as_bytes())
}

/// The text of an instance for that application at a moment.
fn read_for(alloc: Global, text: &str, app: &str, ms: u64) -> Result<SharedInstance, Fault> {
    let moment = Moment::new(ms).ok_or(Fault::BadValue)?;
    let app = App::read(alloc, app)?;
    read_instance(alloc, text, &app, moment)
}

/// The text of an instance for application A at moment 1000.
fn read(alloc: Global, text: &str) -> Result<SharedInstance, Fault> {
    read_for(alloc, text, "A", 1000)
}

/// The fault of a text for application A.
pub fn fault_of(alloc: Global, text: &str) -> Option<Fault> {
    read(alloc, text).err()
}

/// Whether a text is refused with that fault.
fn is_refused(alloc: Global, text: &str, fault: Fault) -> bool {
    fault_of(alloc, text) == Some(fault)
}

/// Whether it is the instance of `REGISTRATION`.
fn is_registered(instance: &SharedInstance) -> bool {
    instance.key().app.as_str() == "A"
        && instance.key().id.as_str() == "i1"
        && instance.status() == Status::Up
        && instance.overridden() == Status::Unknown
        && instance.last_dirty().value() == 5
        && instance.secs().secs() == 90
        && instance.interval().secs() == 30
}

fn is_read(alloc: Global) -> Result<bool, Fault> {
    let instance = read(alloc, REGISTRATION)?;
    let is_registered = is_registered(&instance);
    drop(instance);
    Ok(is_registered)
}

#[test]
fn a_registration_is_read(rt: HostRuntime) {
    assert!(rt; REGISTRATION.len() == 150);
    assert!(rt; is_read(rt.alloc()) == Ok(true));
}

/// The JSON of the instance of a text for that application, with the moments of its lease.
fn held_of(alloc: Global, text: &str, app: &str, times: Option<Times>) -> Result<Vec<u8>, Fault> {
    let instance = read_for(alloc, text, app, 1000)?;
    let mut out = Vec::new(alloc);
    append_held(alloc, &mut out, &instance, times)?;
    Ok(out)
}

/// Whether that is what is written of `REGISTRATION`, registered at 1000.
fn is_listed(alloc: Global, text: &str) -> Result<bool, Fault> {
    let times = Times {
        registered: 1000,
        updated: 1000,
        up: 1000,
    };
    let written = held_of(alloc, REGISTRATION, "A", Some(times))?;
    Ok(written.as_slice() == text.as_bytes())
}

#[test]
fn a_registration_is_listed(rt: HostRuntime) {
    assert!(rt; LISTED.len() == 345);
    assert!(rt; is_listed(rt.alloc(), LISTED) == Ok(true));
}

/// The members of an instance with which nothing is wrong: their names and their JSON.
const SOUND: [(&str, &str); 8] = [
    ("instanceId", r#""i1""#),
    ("hostName", r#""h""#),
    ("ipAddr", r#""x""#),
    ("app", r#""a""#),
    ("dataCenterInfo", r#"{"name":"MyOwn"}"#),
    ("lastDirtyTimestamp", "5"),
    ("leaseInfo", r#"{"durationInSecs":90}"#),
    ("countryId", "1"),
];

/// The faults in the order in which they are told, each with the members that make it. `NotJson` stands beside `NotWhole`
/// alone, since it has no instance: `what_is_no_instance_is_refused` has that pair.
const WRONG: [(Fault, &[(&str, &str)]); 11] = [
    (Fault::NotWhole, &[("countryId", "1.5")]),
    (
        Fault::MissingId,
        &[("instanceId", r#""""#), ("hostName", "null")],
    ),
    (Fault::MissingHost, &[("hostName", r#""""#)]),
    (Fault::MissingIp, &[("ipAddr", "7")]),
    (Fault::MissingApp, &[("app", r#""""#)]),
    (Fault::WrongApp, &[("app", r#""b""#)]),
    (Fault::MissingCenter, &[("dataCenterInfo", "[]")]),
    (
        Fault::MissingCenterName,
        &[("dataCenterInfo", r#"{"name":null}"#)],
    ),
    (Fault::TooLong, &[("instanceId", ID_OF_256_BYTES)]),
    (Fault::BadStamp, &[("lastDirtyTimestamp", "-1")]),
    (
        Fault::BadDuration,
        &[("leaseInfo", r#"{"durationInSecs":2147484}"#)],
    ),
];

const ID_OF_256_BYTES: &str =
    r#""xxxxxxxxxxxxxxxxxxxxxxxxxxxxxxxxxxxxxxxxxxxxxxxxxxxxxxxxxxxxxxxxxxxxxxxxxxxxxxxxxxxxxxxxxxxxxxxxxxxxxxxxxxxxxxxxxxxxxxxxxxxxxxxxxxxxxxxxxxxxxxxxxxxxxxxxxxxxxxxxxxxxxxxxxxxxxxxxxxxxxxxxxxxxxxxxxxxxxxxxxxxxxxxxxxxxxxxxxxxxxxxxxxxxxxxxxxxxxxxxxxxxxxxxxxxxxxxx""#;

/// The JSON of the member of that name.
fn json_of<'t>(members: &[(&str, &'t str)], name: &str) -> Option<&'t str> {
    for (own, json) in members {
        if *own == name {
            return Some(*json);
        }
    }
    None
}

/// Whether two faults are made by one member: then no body has both.
fn exclude(first: &[(&str, &str)], second: &[(&str, &str)]) -> bool {
    for (name, _) in first {
        if json_of(second, name).is_some() {
            return true;
        }
    }
    false
}

/// Writes a member behind that text.
fn push_member(body: &mut String, before: &str, name: &str, json: &str) -> Result<(), AllocError> {
    push_each(body, &[before, name, "\":", json])
}

/// Writes the members that are sound but for these.
fn push_members(
    body: &mut String,
    first: &[(&str, &str)],
    second: &[(&str, &str)],
) -> Result<(), AllocError> {
    let mut before = r#"{"instance":{""#;
    for (name, sound) in &SOUND {
        let json = json_of(first, name)
            .or(json_of(second, name))
            .unwrap_or(*sound);
        push_member(body, before, name, json)?;
        before = ",\"";
    }
    body.push_str("}}")
}

/// The body of an instance that is sound but for these members.
fn body_with(
    alloc: Global,
    first: &[(&str, &str)],
    second: &[(&str, &str)],
) -> Result<String, AllocError> {
    let mut body = String::new(alloc);
    push_members(&mut body, first, second)?;
    Ok(body)
}

/// Whether that fault, or none, is told of a body with these members.
fn tells(
    alloc: Global,
    fault: Option<Fault>,
    first: &[(&str, &str)],
    second: &[(&str, &str)],
) -> Result<bool, AllocError> {
    let body = body_with(alloc, first, second)?;
    Ok(fault_of(alloc, &body) == fault)
}

/// Whether a fault is told of a body with its members and those of a later one, where a body can have both.
fn leads(alloc: Global, fault: Fault, members: &[(&str, &str)], later: &[(&str, &str)]) -> bool {
    exclude(members, later) || tells(alloc, Some(fault), members, later) == Ok(true)
}

/// The first later fault beside which that fault isn't told; the fault itself, where it isn't told alone.
fn hides(
    alloc: Global,
    fault: Fault,
    members: &[(&str, &str)],
    later: &[(Fault, &[(&str, &str)])],
) -> Option<Fault> {
    if !leads(alloc, fault, members, &[]) {
        return Some(fault);
    }
    for (other, others) in later {
        if !leads(alloc, fault, members, others) {
            return Some(*other);
        }
    }
    None
}

/// Whether the fault at the first place isn't hidden by one of those behind it.
fn is_first(alloc: Global, faults: &[(Fault, &[(&str, &str)])]) -> bool {
    match faults {
        [(fault, members), later @ ..] => hides(alloc, *fault, members, later).is_none(),
        [] => false,
    }
}

#[test]
fn the_first_of_two_faults_is_told(rt: HostRuntime) {
    assert!(rt; tells(rt.alloc(), None, &[], &[]) == Ok(true));
    let wrong = WRONG.as_slice();
    for place in 0..wrong.len() {
        assert!(rt; is_first(rt.alloc(), &wrong[place..]), "at {place}");
    }
}

/// Texts that are no JSON, or no object with the member `instance`.
const NO_INSTANCES: [&str; 11] = [
    "",
    "{",
    "null",
    "[]",
    "{}",
    r#"{"instance":null}"#,
    r#"{"instance":[]}"#,
    r#"{"instance":[1.5]}"#,
    r#"{"instance":"i1"}"#,
    r#"[{"instance":{}}]"#,
    r#"{"instance":{}}}"#,
];

#[test]
fn what_is_no_instance_is_refused(rt: HostRuntime) {
    for text in &NO_INSTANCES {
        assert!(rt; is_refused(rt.alloc(), text, Fault::NotJson), "at {text}");
    }
}

/// Whether 200 arrays, one in another, are refused as an instance.
fn is_too_deep(alloc: Global) -> Result<bool, AllocError> {
    let opens = "[".repeat(alloc, 200)?;
    let closes = "]".repeat(alloc, 200)?;
    let body = joined(alloc, &[r#"{"instance":"#, &opens, &closes, "}"])?;
    Ok(is_refused(alloc, &body, Fault::NotJson))
}

#[test]
fn what_nests_too_deep_is_refused(rt: HostRuntime) {
    assert!(rt; is_too_deep(rt.alloc()) == Ok(true));
}

/// Bodies with numbers, and the first fault of each.
const NUMBERS: [(&str, Fault); 7] = [
    (r#"{"instance":{},"x":1.5}"#, Fault::NotWhole),
    (r#"{"instance":{"x":[{"y":1e2}]}}"#, Fault::NotWhole),
    (r#"{"instance":{"x":-0}}"#, Fault::NotWhole),
    (r#"{"instance":{"x":1.0}}"#, Fault::NotWhole),
    (
        r#"{"instance":{"x":18446744073709551616}}"#,
        Fault::NotWhole,
    ),
    (
        r#"{"instance":{"x":18446744073709551615}}"#,
        Fault::MissingId,
    ),
    (
        r#"{"instance":{"x":-9223372036854775808}}"#,
        Fault::MissingId,
    ),
];

#[test]
fn numbers_are_whole(rt: HostRuntime) {
    for (text, fault) in &NUMBERS {
        assert!(rt; is_refused(rt.alloc(), text, *fault), "at {text}");
    }
}

#[test]
fn another_application_is_refused(rt: HostRuntime) {
    let told = read_for(rt.alloc(), REGISTRATION, "B", 1000).err();
    assert!(rt; told == Some(Fault::WrongApp));
}

/// The instance of a body that has this member beside those that each has.
fn with(alloc: Global, before: &str, json: &str, after: &str) -> Result<SharedInstance, Fault> {
    let members =
        r#"{"instance":{"hostName":"h","app":"a","ipAddr":"x","dataCenterInfo":{"name":"MyOwn"}"#;
    let text = joined(alloc, &[members, before, json, after, "}}"])?;
    read(alloc, &text)
}

/// Whether the instance with this `instanceId` has that id.
fn has_id(alloc: Global, member: &str, id: &str) -> Result<bool, Fault> {
    let instance = with(alloc, member, "", "")?;
    let has = instance.key().id.as_str() == id;
    drop(instance);
    Ok(has)
}

/// Members by which an id is blank.
const BLANK_IDS: [&str; 4] = [
    "",
    r#","instanceId":"""#,
    r#","instanceId":null"#,
    r#","instanceId":5"#,
];

#[test]
fn blank_ids_are_the_hosts(rt: HostRuntime) {
    for member in &BLANK_IDS {
        assert!(rt; has_id(rt.alloc(), member, "h") == Ok(true), "at {member}");
    }
}

/// Whether that id is read.
fn is_id(alloc: Global, id: &str) -> Result<bool, Fault> {
    let member = joined(alloc, &[r#","instanceId":""#, id, "\""])?;
    has_id(alloc, &member, id)
}

/// Whether an id of 255 bytes is read.
fn is_longest(alloc: Global) -> Result<bool, Fault> {
    let id = "x".repeat(alloc, 255)?;
    is_id(alloc, &id)
}

#[test]
fn an_id_has_255_bytes_at_most(rt: HostRuntime) {
    assert!(rt; is_longest(rt.alloc()) == Ok(true));
}

/// The status and the overridden status of the instance with this member.
fn statuses(alloc: Global, before: &str, json: &str) -> Result<(Status, Status), Fault> {
    let instance = with(alloc, before, json, "")?;
    let statuses = (instance.status(), instance.overridden());
    drop(instance);
    Ok(statuses)
}

/// Whether it is UP and overridden so where it has these members.
fn is_overridden(alloc: Global, members: &str, status: Status) -> bool {
    statuses(alloc, members, "") == Ok((Status::Up, status))
}

/// Whether this status is read so, and isn't overridden.
fn is_in(alloc: Global, json: &str, status: Status) -> bool {
    statuses(alloc, r#","status":"#, json) == Ok((status, Status::Unknown))
}

/// Statuses as JSON, with what is read of each.
const STATUSES: [(&str, Status); 13] = [
    ("null", Status::Up),
    (r#""up""#, Status::Up),
    (r#""Down""#, Status::Down),
    (r#""STARTING""#, Status::Starting),
    (r#""out_OF_service""#, Status::OutOfService),
    (r#""Unknown""#, Status::Unknown),
    (r#""""#, Status::Unknown),
    (r#""GONE""#, Status::Unknown),
    (r#""UP ""#, Status::Unknown),
    ("5", Status::Unknown),
    ("true", Status::Unknown),
    (r#"["UP"]"#, Status::Unknown),
    (r#"{"UP":1}"#, Status::Unknown),
];

#[test]
fn statuses_in_any_case(rt: HostRuntime) {
    for (text, status) in &STATUSES {
        assert!(rt; is_in(rt.alloc(), text, *status), "at {text}");
    }
}

/// Members that override a status, with what is read of them.
const OVERRIDDEN: [(&str, Status); 7] = [
    ("", Status::Unknown),
    (r#","overriddenStatus":"up""#, Status::Up),
    (r#","overriddenstatus":"DOWN""#, Status::Down),
    (
        r#","overriddenstatus":"DOWN","overriddenStatus":"UP""#,
        Status::Up,
    ),
    (
        r#","overriddenstatus":"DOWN","overriddenStatus":null"#,
        Status::Unknown,
    ),
    (
        r#","overriddenstatus":"DOWN","overriddenStatus":7"#,
        Status::Unknown,
    ),
    (r#","overriddenstatus":null"#, Status::Unknown),
];

#[test]
fn overridden_statuses_in_any_case(rt: HostRuntime) {
    for (members, status) in &OVERRIDDEN {
        assert!(rt; is_overridden(rt.alloc(), members, *status), "at {members}");
    }
}

/// The stamp of the instance with this member.
fn last_dirty(alloc: Global, before: &str, json: &str) -> Result<u64, Fault> {
    let instance = with(alloc, before, json, "")?;
    let last_dirty = instance.last_dirty().value();
    drop(instance);
    Ok(last_dirty)
}

/// Whether this stamp is read as that number, or is none.
fn is_stamp(alloc: Global, json: &str, stamp: Option<u64>) -> bool {
    last_dirty(alloc, r#","lastDirtyTimestamp":"#, json) == stamp.ok_or(Fault::BadStamp)
}

/// Stamps as JSON, with what is read of each.
const STAMPS: [(&str, Option<u64>); 17] = [
    ("null", Some(1000)),
    ("0", Some(0)),
    (r#""0""#, Some(0)),
    ("9223372036854775807", Some(9_223_372_036_854_775_807)),
    (r#""9223372036854775807""#, Some(9_223_372_036_854_775_807)),
    (r#""0000000000000000005""#, Some(5)),
    ("9223372036854775808", None),
    (r#""9223372036854775808""#, None),
    (r#""00000000000000000005""#, None),
    ("-1", None),
    (r#""-1""#, None),
    (r#""+1""#, None),
    (r#"" 1""#, None),
    (r#""""#, None),
    ("true", None),
    ("[]", None),
    ("{}", None),
];

#[test]
fn stamps_as_numbers_and_as_texts(rt: HostRuntime) {
    assert!(rt; last_dirty(rt.alloc(), "", "") == Ok(1000));
    for (text, stamp) in &STAMPS {
        assert!(rt; is_stamp(rt.alloc(), text, *stamp), "at {text}");
    }
}

/// The duration and the interval of the instance with this member.
fn terms(alloc: Global, before: &str, json: &str, after: &str) -> Result<(u32, u32), Fault> {
    let instance = with(alloc, before, json, after)?;
    let terms = (instance.secs().secs(), instance.interval().secs());
    drop(instance);
    Ok(terms)
}

/// Whether this duration is read as so many seconds, or is none.
fn is_duration(alloc: Global, json: &str, secs: Option<u32>) -> bool {
    let read = terms(alloc, r#","leaseInfo":{"durationInSecs":"#, json, "}");
    match secs {
        Some(secs) => read == Ok((secs, 30)),
        None => read == Err(Fault::BadDuration),
    }
}

/// Durations as JSON, with what is read of each.
const DURATIONS: [(&str, Option<u32>); 16] = [
    ("null", Some(90)),
    ("0", Some(90)),
    ("-5", Some(90)),
    (r#""0""#, Some(90)),
    ("1", Some(1)),
    ("2147483", Some(2_147_483)),
    (r#""2147483""#, Some(2_147_483)),
    (r#""0000000030""#, Some(30)),
    ("2147484", None),
    (r#""2147484""#, None),
    (r#""00000000030""#, None),
    (r#""-5""#, None),
    (r#""""#, None),
    ("false", None),
    ("[30]", None),
    ("{}", None),
];

#[test]
fn durations_as_numbers_and_as_texts(rt: HostRuntime) {
    for (text, secs) in &DURATIONS {
        assert!(rt; is_duration(rt.alloc(), text, *secs), "at {text}");
    }
}

/// Whether this interval is read as so many seconds.
fn is_interval(alloc: Global, json: &str, secs: u32) -> bool {
    let read = terms(
        alloc,
        r#","leaseInfo":{"renewalIntervalInSecs":"#,
        json,
        "}",
    );
    read == Ok((90, secs))
}

/// Intervals as JSON, with what is read of each.
const INTERVALS: [(&str, u32); 7] = [
    ("1", 1),
    ("2147483647", 2_147_483_647),
    ("0", 30),
    ("2147483648", 30),
    ("-1", 30),
    (r#""10""#, 30),
    ("null", 30),
];

#[test]
fn intervals_are_numbers(rt: HostRuntime) {
    for (text, interval) in &INTERVALS {
        assert!(rt; is_interval(rt.alloc(), text, *interval), "at {text}");
    }
}

/// Information on a lease that says nothing of it.
const NO_TERMS: [&str; 5] = ["null", "[]", "{}", r#""30""#, "30"];

#[test]
fn terms_that_are_missing(rt: HostRuntime) {
    for lease in &NO_TERMS {
        assert!(rt;
            terms(rt.alloc(), r#","leaseInfo":"#, lease, "") == Ok((90, 30)),
            "at {lease}"
        );
    }
}

/// What a client of Eureka sends.
const CLIENT: &str =
    r#"{"instance":{"instanceId":"h:One:8080","hostName":"h","app":"One","ipAddr":"10.1.2.3","status":"starting","overriddenstatus":"out_of_service","port":{"$":8080,"@enabled":"true"},"securePort":{"$":443,"@enabled":"false"},"countryId":1,"dataCenterInfo":{"@class":"com.netflix.appinfo.InstanceInfo$DefaultDataCenterInfo","name":"MyOwn"},"leaseInfo":{"renewalIntervalInSecs":10,"durationInSecs":"40","registrationTimestamp":7,"evictionTimestamp":8},"metadata":{"zone":"b","management.port":"8080"},"homePageUrl":"http://h:8080/","statusPageUrl":null,"vipAddress":"one","isCoordinatingDiscoveryServer":"false","lastUpdatedTimestamp":"1700000000000","lastDirtyTimestamp":1700000000001,"actionType":null}}"#;

/// The same, without the moments of a lease.
const WRITTEN: &str =
    r#"{"instance":{"actionType":null,"app":"ONE","countryId":1,"dataCenterInfo":{"@class":"com.netflix.appinfo.InstanceInfo$DefaultDataCenterInfo","name":"MyOwn"},"homePageUrl":"http://h:8080/","hostName":"h","instanceId":"h:One:8080","ipAddr":"10.1.2.3","isCoordinatingDiscoveryServer":"false","lastDirtyTimestamp":"1700000000001","lastUpdatedTimestamp":"1700000000000","leaseInfo":{"durationInSecs":40,"renewalIntervalInSecs":10},"metadata":{"management.port":"8080","zone":"b"},"overriddenStatus":"OUT_OF_SERVICE","port":{"$":8080,"@enabled":"true"},"securePort":{"$":443,"@enabled":"false"},"status":"STARTING","statusPageUrl":null,"vipAddress":"one"}}"#;

/// Whether `WRITTEN` is what is written of the instance of that text.
fn is_written(alloc: Global, text: &str) -> Result<bool, Fault> {
    let written = held_of(alloc, text, "one", None)?;
    Ok(written.as_slice() == WRITTEN.as_bytes())
}

#[test]
fn what_a_client_gave_comes_back(rt: HostRuntime) {
    assert!(rt; is_written(rt.alloc(), CLIENT) == Ok(true));
}

/// Whether what is written is read again.
pub fn comes_again(alloc: Global) -> Result<bool, Fault> {
    is_written(alloc, WRITTEN)
}

#[test]
fn what_is_written_is_read_again(rt: HostRuntime) {
    assert!(rt; comes_again(rt.alloc()) == Ok(true));
}

/// A lease of that application, id and status.
fn listed(alloc: Global, app: &str, id: &str, status: &str) -> Result<Listed, Fault> {
    let text = joined(
        alloc,
        &[
            r#"{"instance":{"instanceId":""#,
            id,
            r#"","hostName":"h","app":""#,
            app,
            r#"","ipAddr":"x","status":""#,
            status,
            r#"","dataCenterInfo":{"name":"MyOwn"}}}"#,
        ],
    )?;
    let instance = read_for(alloc, &text, app, 5)?;
    Ok(Listed {
        instance,
        times: Times {
            registered: 5,
            updated: 90_005,
            up: 0,
        },
    })
}

/// Such leases.
fn listing(alloc: Global, leases: &[(&str, &str, &str)]) -> Result<Vec<Listed>, Fault> {
    let mut listing = Vec::new(alloc);
    for (app, id, status) in leases {
        let listed = listed(alloc, app, id, status)?;
        listing.push(listed)?;
    }
    Ok(listing)
}

/// Whether that is what is written of all these leases.
pub fn is_all(alloc: Global, leases: &[(&str, &str, &str)], text: &str) -> Result<bool, Fault> {
    let held = listing(alloc, leases)?;
    let mut out = Vec::new(alloc);
    append_applications(alloc, &mut out, &held)?;
    Ok(out.as_slice() == text.as_bytes())
}

/// Whether these parts make what is written of all these leases.
fn are_all(alloc: Global, leases: &[(&str, &str, &str)], parts: &[&str]) -> Result<bool, Fault> {
    let text = joined(alloc, parts)?;
    is_all(alloc, leases, &text)
}

/// What is written of leases of one application, of which there is one at least.
fn of_app(alloc: Global, held: &[Listed]) -> Result<Vec<u8>, Fault> {
    if held.is_empty() {
        return Err(Fault::MissingApp);
    }
    let mut out = Vec::new(alloc);
    append_application(alloc, &mut out, held)?;
    Ok(out)
}

/// Whether that is what is written of these leases' application.
pub fn is_of_app(alloc: Global, leases: &[(&str, &str, &str)], text: &str) -> Result<bool, Fault> {
    let held = listing(alloc, leases)?;
    let written = of_app(alloc, &held)?;
    Ok(written.as_slice() == text.as_bytes())
}

/// Whether these parts make what is written of these leases' application.
fn are_of_app(alloc: Global, leases: &[(&str, &str, &str)], parts: &[&str]) -> Result<bool, Fault> {
    let text = joined(alloc, parts)?;
    is_of_app(alloc, leases, &text)
}

#[test]
fn nothing_held_is_listed(rt: HostRuntime) {
    let text = r#"{"applications":{"application":[],"apps__hashcode":"","versions__delta":"1"}}"#;
    assert!(rt; text.len() == 77);
    assert!(rt; are_all(rt.alloc(), &[], &[text]) == Ok(true));
}

/// What is written of lease A/i1, which is UP.
const FIRST: &str =
    r#"{"app":"A","dataCenterInfo":{"name":"MyOwn"},"hostName":"h","instanceId":"i1","ipAddr":"x","lastDirtyTimestamp":"5","leaseInfo":{"durationInSecs":90,"evictionTimestamp":0,"lastRenewalTimestamp":90005,"registrationTimestamp":5,"renewalIntervalInSecs":30,"serviceUpTimestamp":0},"overriddenStatus":"UNKNOWN","status":"UP"}"#;

/// What is written of lease A/i2, which is DOWN.
const SECOND: &str =
    r#"{"app":"A","dataCenterInfo":{"name":"MyOwn"},"hostName":"h","instanceId":"i2","ipAddr":"x","lastDirtyTimestamp":"5","leaseInfo":{"durationInSecs":90,"evictionTimestamp":0,"lastRenewalTimestamp":90005,"registrationTimestamp":5,"renewalIntervalInSecs":30,"serviceUpTimestamp":0},"overriddenStatus":"UNKNOWN","status":"DOWN"}"#;

/// What is written of lease B/i1, which is UP.
const THIRD: &str =
    r#"{"app":"B","dataCenterInfo":{"name":"MyOwn"},"hostName":"h","instanceId":"i1","ipAddr":"x","lastDirtyTimestamp":"5","leaseInfo":{"durationInSecs":90,"evictionTimestamp":0,"lastRenewalTimestamp":90005,"registrationTimestamp":5,"renewalIntervalInSecs":30,"serviceUpTimestamp":0},"overriddenStatus":"UNKNOWN","status":"UP"}"#;

#[test]
fn applications_are_listed(rt: HostRuntime) {
    let leases = [("A", "i1", "UP"), ("A", "i2", "DOWN"), ("B", "i1", "UP")];
    let parts = [
        r#"{"applications":{"application":[{"instance":["#,
        FIRST,
        ",",
        SECOND,
        r#"],"name":"A"},{"instance":["#,
        THIRD,
        r#"],"name":"B"}],"apps__hashcode":"DOWN_1_UP_2_","versions__delta":"1"}}"#,
    ];
    assert!(rt; are_all(rt.alloc(), &leases, &parts) == Ok(true));
}

#[test]
fn an_application_is_listed(rt: HostRuntime) {
    let leases = [("A", "i1", "UP"), ("A", "i2", "DOWN")];
    let parts = [
        r#"{"application":{"instance":["#,
        FIRST,
        ",",
        SECOND,
        r#"],"name":"A"}}"#,
    ];
    assert!(rt; are_of_app(rt.alloc(), &leases, &parts) == Ok(true));
}
