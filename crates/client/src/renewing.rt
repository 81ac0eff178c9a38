//! Renewals of the client token, one after another.

use crate::server::{Patience, ask};
use api_client::{Command, Failure, Manner, pause_before_renewal, report, seconds_left, tell};
use endpoints::Writing;
use std::rt::HostRuntime;
use std::thread;
use std::time::Duration;

/// How many seconds pass before a renewal is tried again after one that had no reply.
const RETRY: u64 = 5;

/// Renews the client token at two thirds of what is left, until it is refused, and answers the exit status. A renewal
/// without a reply is tried again for as long as the token lasts.
pub(crate) fn keep_renewing(
    rt: &HostRuntime,
    command: &Command<'_>,
    manner: &Manner<'_>,
    patience: Patience,
) -> u8 {
    let mut out = Writing::new(rt.stdout());
    let mut err = Writing::new(rt.stderr());
    let mut left = 0;
    for _ in 0..u64::MAX {
        let answer = ask(rt, command, patience, left == 0);
        let is_lost = answer.is_err();
        if is_lost && left > 0 {
            let pause = left.min(RETRY);
            left -= pause;
            thread::sleep(rt, Duration::from_secs(pause));
            continue;
        }
        if let Ok(reply) = &answer
            && reply.status == 200
        {
            match seconds_left(rt.alloc(), reply.body.as_slice()) {
                Ok(Some(seconds)) => left = seconds,
                Ok(None) => return tell(Failure::BadReply, &mut err),
                Err(_) => return tell(Failure::Memory, &mut err),
            }
        } else {
            return report(rt.alloc(), manner, answer, &mut out, &mut err);
        }
        let status = report(rt.alloc(), manner, answer, &mut out, &mut err);
        if status != 0 {
            return status;
        }
        let pause = pause_before_renewal(left);
        thread::sleep(rt, Duration::from_secs(pause));
        left -= pause.min(left);
    }
    0
}
