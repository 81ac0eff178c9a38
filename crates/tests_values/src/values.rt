//! Values and their texts: identifiers, times, durations, paths, refusals, answers and faults.

use broker_types::*;
use std::alloc::{AllocError, AllocFailed, AllocGlobal, Global};
use std::borrow::CowStr;
use std::process::Abort;
use std::test::Fail;

/// Whether the word is this identifier, as a text, as bytes and as an accessor.
fn is_identifier(alloc: Global, word: u128, want: &str) -> Result<bool, AllocError> {
    let text = id_text(alloc, word)?;
    let accessor = Accessor::of_word(alloc, word)?;
    Ok(
        text.as_str() == want
            && id_bytes(word).as_slice() == want.as_bytes()
            && accessor.as_str() == want,
    )
}

/// Texts that Python's `uuid` prints.
/// Computes `id`, `token_text`.
#[test]
fn identifiers(rt: HostRuntime) -> Result<(), Fail> {
    let alloc = rt.alloc();
    let word = 0x0123456789abcdeffedcba9876543210;
    assert!(rt; is_identifier(alloc, 0x20, "00000000-0000-0000-0000-000000000020")?);
    assert!(rt; is_identifier(alloc, word, "01234567-89ab-cdef-fedc-ba9876543210")?);
    assert!(rt; is_identifier(alloc, u128::MAX, "ffffffff-ffff-ffff-ffff-ffffffffffff")?);
    let token = TokenText::of_word(alloc, 0x20)?;
    assert!(rt; token.as_str() == "hvs.00000000-0000-0000-0000-000000000020");
    Ok(())
}

/// Seconds with their times.
fn expect_times(rt: &(impl Abort + AllocGlobal), rows: &[(u64, &str)]) -> Result<(), Fail> {
    for (seconds, want) in rows.iter() {
        assert!(rt; *seconds < 253_402_300_800);
        let text = time_text(rt.alloc(), *seconds)?;
        assert!(rt; text.as_str() == *want, "{want}");
    }
    Ok(())
}

/// Texts that Python's `datetime` prints.
/// Computes `civil`, `time_text`, `IsClock`.
#[test]
fn times(rt: HostRuntime) -> Result<(), Fail> {
    expect_times(
        &rt,
        &[
            (0, "1970-01-01T00:00:00Z"),
            (100, "1970-01-01T00:01:40Z"),
            (951_782_400, "2000-02-29T00:00:00Z"),
            (951_868_800, "2000-03-01T00:00:00Z"),
            (1_700_000_000, "2023-11-14T22:13:20Z"),
            (4_107_542_399, "2100-02-28T23:59:59Z"),
            (4_107_542_400, "2100-03-01T00:00:00Z"),
            (253_402_300_799, "9999-12-31T23:59:59Z"),
        ],
    )
}

#[test]
fn limits(rt: HostRuntime) {
    let greatest = Moment::new(250_000_000_000);
    assert!(rt; greatest.is_some_and(|moment| moment.seconds() == 250_000_000_000));
    assert!(rt; Moment::new(250_000_000_001).is_none());
    let greatest = 2_764_800;
    assert!(rt; WrapTtl::cut(Seconds::new(greatest)).count() == greatest);
    assert!(rt; WrapTtl::cut(Seconds::new(greatest + 1)).count() == greatest);
}

/// Texts with the seconds of each that is a duration.
fn expect_durations<R: Abort>(rt: &R, rows: &[(&str, Option<u32>)]) {
    for (text, want) in rows.iter() {
        let found = read_duration(text).map(|found| found.count());
        let refusal = Refusal::BadRequest(Reason::InvalidDuration);
        assert!(rt; found == want.ok_or(refusal), "at {text}");
    }
}

/// Computes `IsDuration`, `Group`, `IsGroup`, `IsCount`, `IsSum`, `IsEmptyText`, `groups`,
/// `group_step`, `duration_of`.
#[test]
fn durations(rt: HostRuntime) {
    expect_durations(
        &rt,
        &[
            ("", Some(0)),
            ("90", Some(90)),
            ("1h30m", Some(5400)),
            ("1h1h", Some(7200)),
            ("0000000000000000000000007", Some(7)),
            ("4294967295", Some(4_294_967_295)),
            ("1d", None),
            ("h", None),
            ("1h5", None),
            ("4294967296", None),
            ("1193047h", None),
            ("-1", None),
            (" 1", None),
            ("1.5h", None),
        ],
    );
}

/// Whether the text is read as this path.
fn is_path(text: &str, want: &str) -> bool {
    match Path::read(CowStr::Borrowed(text)) {
        Ok(path) => path.as_str() == want,
        Err(_) => false,
    }
}

/// Whether the text is no path.
fn is_no_path(text: &str) -> bool {
    let refusal = Refusal::BadRequest(Reason::InvalidPath);
    Path::read(CowStr::Borrowed(text)).err() == Some(refusal)
}

/// The first of the texts that is a path, if there is one.
fn first_path<'t>(texts: &[&'t str]) -> Option<&'t str> {
    for text in texts {
        if !is_no_path(text) {
            return Some(text);
        }
    }
    None
}

/// Computes `segments`, `is_segment`, `is_path`, `without_slash`.
#[test]
fn paths(rt: HostRuntime) {
    assert!(rt; is_path("a", "a"));
    assert!(rt; is_path("a/", "a"));
    assert!(rt; is_path("secret/data/a b", "secret/data/a b"));
    assert!(rt; is_path("a/...", "a/..."));
    let first = first_path(&[
        "", "/", "a//", "a//b", "/a", "..", ".", "a/./b", "a/..", "a\u{1f}b", "a\u{7f}",
    ]);
    assert_eq!(rt; first, None);
}

/// Whether a text of so many letters is a path.
fn is_path_of(alloc: Global, letters: usize) -> Result<bool, AllocError> {
    let text = "a".repeat(alloc, letters)?;
    Ok(is_path(text.as_str(), text.as_str()))
}

/// Whether a text of so many letters is no path.
fn is_no_path_of(alloc: Global, letters: usize) -> Result<bool, AllocError> {
    let text = "a".repeat(alloc, letters)?;
    Ok(is_no_path(text.as_str()))
}

/// Computes `is_path`.
#[test]
fn longest_paths(rt: HostRuntime) -> Result<(), Fail> {
    assert!(rt; is_path_of(rt.alloc(), 512)?);
    assert!(rt; is_no_path_of(rt.alloc(), 513)?);
    Ok(())
}

/// Whether the answer to a refusal has this status, the methods of the refusal and this body.
fn is_refusal(alloc: Global, refusal: Refusal, code: u16, body: &str) -> Result<bool, AllocError> {
    let answer = Answer::refused(alloc, refusal)?;
    Ok(
        answer.status.code() == code
            && answer.methods == refusal.methods()
            && answer.text.as_str() == body,
    )
}

/// Computes `status_code`, `denial_text`, `refusal_status`, `refusal_methods`, `refusal_text`,
/// `errors_body`, `refused`.
#[test]
fn refusals(rt: HostRuntime) -> Result<(), Fail> {
    let alloc = rt.alloc();
    let methods = Methods {
        get: true,
        ..Methods::none()
    };
    let bad = Refusal::BadRequest(Reason::MalformedRequest);
    let missing = Refusal::BadRequest(Reason::MissingField(Field::LeaseId));
    let periodic = Refusal::BadRequest(Reason::PeriodNeedsSudo);
    let denied = Refusal::Forbidden(Denial::BadToken);
    let unsupported = Refusal::MethodNotAllowed(methods);
    let body = "{\"errors\":[\"malformed request\"]}\n";
    assert!(rt; is_refusal(alloc, bad, 400, body)?);
    let body = "{\"errors\":[\"missing field: lease_id\"]}\n";
    assert!(rt; is_refusal(alloc, missing, 400, body)?);
    let body = "{\"errors\":[\"root or sudo privileges required to create periodic token\"]}\n";
    assert!(rt; is_refusal(alloc, periodic, 400, body)?);
    assert!(rt; is_refusal(alloc, denied, 403, "{\"errors\":[\"bad token\"]}\n")?);
    assert!(rt; is_refusal(alloc, Refusal::NotFound, 404, "{\"errors\":[]}\n")?);
    let body = "{\"errors\":[\"unsupported operation\"]}\n";
    assert!(rt; is_refusal(alloc, unsupported, 405, body)?);
    let body = "{\"errors\":[\"identifier already used\"]}\n";
    assert!(rt; is_refusal(alloc, Refusal::IdentifierUsed, 500, body)?);
    let body = errors_body(alloc, Some("a"))?;
    assert!(rt; body.as_str() == "{\"errors\":[\"a\"]}\n");
    Ok(())
}

/// Computes `no_methods`, `Response`, `response_of`, `HasRoom`.
#[test]
fn answers(rt: HostRuntime) -> Result<(), Fail> {
    let text = TextBuf::copied(rt.alloc(), "{}\n")?;
    let answer = Answer::new(rt.alloc(), Status::Success, Methods::none(), text)?;
    assert!(rt; answer.status == Status::Success);
    assert!(rt; answer.text.into_string().as_str() == "{}\n");
    let bytes = answer.room.into_vec();
    assert!(rt; bytes.is_empty() && bytes.capacity() >= 1027);
    Ok(())
}

#[test]
fn rooms(rt: HostRuntime) -> Result<(), Fail> {
    assert!(rt; Room::reserve(rt.alloc(), 7)?.into_vec().capacity() >= 7);
    assert!(rt; Room::empty(rt.alloc()).into_vec().capacity() == 0);
    Ok(())
}

/// Converts through the bound, at a concrete type.
fn converted<E: Drop, F: From<E> + Drop>(error: E) -> F {
    F::from(error)
}

/// Whether the fault has this number and this text.
fn is_fault(alloc: Global, fault: Fault, number: u8, text: &str) -> Result<bool, AllocError> {
    let printed = format!(in alloc; "{fault}")?;
    Ok(fault.number() == number && printed.as_str() == text)
}

/// Computes `fault_number`, `fault_text`.
#[test]
fn faults(rt: HostRuntime) -> Result<(), Fail> {
    let alloc = rt.alloc();
    let fault: Fault = converted(AllocFailed { value: 7u8 });
    assert!(rt; fault == Fault::Memory);
    let error: RequestError = converted(AllocError);
    assert!(rt; error == RequestError::Fault(Fault::Memory));
    let bad_start = "the store cannot be started or opened";
    assert!(rt; is_fault(alloc, Fault::Memory, 1, "out of memory")?);
    assert!(rt; is_fault(alloc, Fault::Storage, 2, "the storage failed")?);
    assert!(rt; is_fault(alloc, Fault::Damaged, 3, "a damaged row")?);
    assert!(rt; is_fault(alloc, Fault::BadStart, 4, bad_start)?);
    Ok(())
}
