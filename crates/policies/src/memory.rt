//! Policies that were read, remembered by their texts.

ghost use Rattle.std.specs.Prelude.{◌≡◌, ◌≤◌, Some, None, IfOk, IfErr, IfSome, length};
ghost use Rattle.records.specs.Calls.{IsDecodeFault};
ghost use Rattle.policies.specs.PolicyProps.{policy_props};
ghost use Rattle.policies.specs.PolicyTexts.{policy_of};

use crate::rule::Policy;
use broker_types::{Fault, RequestError, TextBuf};
use std::alloc::Global;
use std::rc::Rc;

/// How many policies are remembered.
const PLACES: usize = 64;

/// How many bytes the text of a remembered policy has at most.
const LENGTH: usize = 16_384;

/// A text, and the policy that was read from it.
#[derive(Drop)]
struct Known {
    text: TextBuf,
    policy: Rc<Policy>,
    ghost read: { policy_of text ≡ Some policy.value } by { Prim.hlevel policy_props },
    ghost short: { length text ≤ 16384 },
}

/// Policies that were read, by their texts: at most 64, each of a text of at most 16,384 bytes. Of more the oldest
/// goes first. No change of a policy has to be told, since another text is another entry.
#[derive(Drop)]
pub struct PolicyMemory {
    known: Vec<Known>,
    turn: usize,
    ghost few: { length known.items ≤ 64 },
}

impl PolicyMemory {
    /// A memory of nothing, which takes none.
    pub fn new(alloc: Global) -> PolicyMemory {
        PolicyMemory {
            known: Vec::new(alloc),
            turn: 0,
        }
    }

    /// The policy of a text that was kept, remembered or read; one that is read is remembered if there is room. It
    /// fails as `Damaged` if the text is none, and also if memory runs out while it is read.
    pub(crate) fn policy_kept(&mut self, alloc: Global, text: &str) -> Result<Rc<Policy>, Fault>
        ensures exact { IfOk result (λ p. policy_of text.now ≡ Some p.value) }
        ensures faults { IfErr result (IsDecodeFault (policy_of text.now ≡ None)) }
    {
        match found(&self.known, text) {
            Some(policy) => Ok(policy),
            None => {
                let policy = policy_shared(alloc, text)?;
                self.remember(alloc, text, &policy);
                Ok(policy)
            }
        }
    }

    /// Remembers a policy, unless its text is too long or memory is refused.
    fn remember(&mut self, alloc: Global, text: &str, policy: &Rc<Policy>)
        requires { policy_of text.now ≡ Some policy.now.value }
    {
        if text.len() > LENGTH {
            return;
        }
        let Ok(policy) = policy.clone() else {
            return;
        };
        let Ok(text) = TextBuf::copied(alloc, text) else {
            return;
        };
        self.keep(Known { text, policy });
    }

    /// Keeps an entry, in the place of the oldest if there are as many as may be.
    fn keep(&mut self, entry: Known) {
        let len = self.known.len();
        if len < PLACES {
            let _kept = self.known.push(entry);
            return;
        }
        let at = self.turn % len;
        self.turn = at + 1;
        let _old = std::mem::replace(&mut self.known[at], entry);
    }
}

/// The policy of a text, if it is remembered.
fn found(known: &[Known], text: &str) -> Option<Rc<Policy>>
    ensures { IfSome result (λ p. policy_of text.now ≡ Some p.value) }
{
    for entry in known {
        if entry.text.as_str() == text {
            return entry.policy.clone().ok();
        }
    }
    None
}

/// The policy of a text that was kept, on the heap.
fn policy_shared(alloc: Global, text: &str) -> Result<Rc<Policy>, Fault>
    ensures exact { IfOk result (λ p. policy_of text.now ≡ Some p.value) }
    ensures faults { IfErr result (IsDecodeFault (policy_of text.now ≡ None)) }
{
    let policy = policy_read(alloc, text)?;
    match Rc::new(alloc, policy) {
        Ok(policy) => Ok(policy),
        Err(_) => Err(Fault::Memory),
    }
}

/// The policy of a text that was kept. It fails as `Damaged` if the text is none.
fn policy_read(alloc: Global, text: &str) -> Result<Policy, Fault>
    ensures exact { IfOk result (λ p. policy_of text.now ≡ Some p) }
    ensures faults { IfErr result (IsDecodeFault (policy_of text.now ≡ None)) }
{
    match Policy::from_json(alloc, text) {
        Ok(policy) => Ok(policy),
        Err(RequestError::Refused(_)) => Err(Fault::Damaged),
        Err(RequestError::Fault(fault)) => Err(fault),
    }
}
