//! Policies over a transaction in memory. Which texts are policies, which pattern is chosen for a path, and which names
//! are refused is in `forms_of_policies`, `chosen_patterns` and `names_of_policies` of `tests/rows`.

use broker_types::{Reason, Refusal, RequestError, TextBuf, Verb};
use policies::{Capability, Policy, PolicyMemory, allows, delete, get, list, rules_of, set};
use records::{ListRecords, ListTx};
use std::alloc::Global;
use std::test::Fail;

/// A transaction with these texts as policies of these names
fn kept(rt: &HostRuntime, policies: &[(&str, &str)]) -> Result<ListTx, Fail> {
    let alloc = rt.alloc();
    let mut tx = ListRecords::new(alloc).begin()?;
    for (name, text) in policies {
        if text.len() > 4096 {
            return Err(Fail::from("a long text"));
        }
        set(alloc, &mut tx, name, text)?;
    }
    Ok(tx)
}

fn is_policy(rt: &HostRuntime, text: &str) -> bool {
    Policy::from_json(rt.alloc(), text).is_ok()
}

#[test]
fn texts_are_policies(rt: HostRuntime) {
    assert!(rt; is_policy(&rt, "{\"path\":{}}"));
    assert!(rt; is_policy(&rt, "{\"path\":{\"a/+*\":{\"capabilities\":[\"read\"]}}}"));
    assert!(rt; !is_policy(&rt, "{\"path\":{\"a/+\":{\"capabilities\":[\"read\"]}}}"));
}

/// A caller with the policies `p` and `absent` may read some paths and others not.
#[test]
fn the_exact_pattern_and_then_the_longest_prefix(rt: HostRuntime) -> Result<(), Fail> {
    let alloc = rt.alloc();
    let text =
        "{\"path\":{\"d/*\":{\"capabilities\":[\"read\"]},\"d/a*\":{\"capabilities\":[\"deny\"]},\
        \"d/ab\":{\"capabilities\":[\"read\"]},\"d/c*d\":{\"capabilities\":[\"deny\"]}}}";
    let mut tx = kept(&rt, &[("p", text)])?;
    let names = [
        TextBuf::copied(alloc, "p")?,
        TextBuf::copied(alloc, "absent")?,
    ];
    let mut memory = PolicyMemory::new(alloc);
    let rules = rules_of(&mut memory, alloc, &mut tx, &names, Verb::Get)?;
    assert!(rt; allows(&rules, "d/x", Capability::Read));
    assert!(rt; allows(&rules, "d/ab", Capability::Read));
    assert!(rt; !allows(&rules, "d/a", Capability::Read));
    assert!(rt; !allows(&rules, "d/c*d", Capability::Read));
    Ok(())
}

/// The names that are listed are those of the policies and the two that are always there.
#[test]
fn policies_are_kept(rt: HostRuntime) -> Result<(), Fail> {
    let alloc = rt.alloc();
    let good = "{\"path\":{}}";
    let mut tx = kept(&rt, &[("default", good), ("Root", good), ("a", good)])?;
    delete(&mut tx, "a")?;
    let fixed = RequestError::Refused(Refusal::BadRequest(Reason::PolicyFixed));
    assert!(rt; delete(&mut tx, "root") == Err(fixed));
    assert!(rt; get(alloc, &mut tx, "a")?.is_none());
    assert!(rt; get(alloc, &mut tx, "Root")?.is_some_and(|text| text.as_str() == good));
    let names = list(alloc, &mut tx)?;
    let expected = ["Root", "default", "root"];
    assert!(rt; names.len() == expected.len());
    assert!(rt;
        names
            .iter()
            .zip(&expected)
            .all(|(name, wanted)| name.as_str() == *wanted)
    );
    Ok(())
}

const READ: &str = "{\"path\":{\"d/*\":{\"capabilities\":[\"read\"]}}}";

const DENY: &str = "{\"path\":{\"d/*\":{\"capabilities\":[\"deny\"]}}}";

/// Whether the policy `p` lets a path be read.
fn may_read(memory: &mut PolicyMemory, alloc: Global, tx: &mut ListTx) -> Result<bool, Fail> {
    let names = [TextBuf::copied(alloc, "p")?];
    let rules = rules_of(memory, alloc, tx, &names, Verb::Get)?;
    Ok(allows(&rules, "d/x", Capability::Read))
}

/// A policy that is remembered is set anew, deleted and set again, and each takes effect.
#[test]
fn changes_of_remembered_policies(rt: HostRuntime) -> Result<(), Fail> {
    let alloc = rt.alloc();
    let mut tx = kept(&rt, &[("p", READ)])?;
    let mut memory = PolicyMemory::new(alloc);
    for _ in 0..3 {
        assert!(rt; may_read(&mut memory, alloc, &mut tx)?);
    }
    set(alloc, &mut tx, "p", DENY)?;
    assert!(rt; !may_read(&mut memory, alloc, &mut tx)?);
    delete(&mut tx, "p")?;
    assert!(rt; !may_read(&mut memory, alloc, &mut tx)?);
    set(alloc, &mut tx, "p", READ)?;
    assert!(rt; may_read(&mut memory, alloc, &mut tx)?);
    Ok(())
}

/// More texts than have a place are each answered by itself, twice over.
#[test]
fn more_policies_than_places(rt: HostRuntime) -> Result<(), Fail> {
    let alloc = rt.alloc();
    let mut tx = kept(&rt, &[])?;
    let mut memory = PolicyMemory::new(alloc);
    for number in 0..140_u32 {
        let text = format!(in alloc;
            "{{\"name\":\"{}\",\"path\":{{\"d/*\":{{\"capabilities\":[\"{}\"]}}}}}}",
            number % 70,
            if number % 2 == 0 { "read" } else { "deny" }
        )?;
        if text.as_str().len() > 4096 {
            return Err(Fail::from("a long text"));
        }
        set(alloc, &mut tx, "p", text.as_str())?;
        assert!(rt; may_read(&mut memory, alloc, &mut tx)? == (number % 2 == 0));
    }
    Ok(())
}
