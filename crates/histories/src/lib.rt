//! What the requests of a run ask of the broker, one after another, and the laws over that: what holds of every
//! history, whatever is asked.
#![tactic(auto)]

mod laws;

pub use laws::{
    all_that_is_asked_keeps_the_laws, allowed_requests_are_carried_out,
    disabled_mounts_leave_nothing, identifiers_are_given_out_once, kept_replies_are_the_replies,
    kept_responses_stay, leases_are_of_their_callers, leases_stay_revoked,
    look_ups_show_what_there_is, only_allowed_requests_are_served, open_requests_mean_their_own,
    paths_mean_their_commands, permission_is_as_documented, policies_decide, refusals_tell_why,
    refused_requests_change_nothing, requests_evolve, responses_are_handed_out_once,
    revocation_lasts, settings_follow, statuses_follow, tokens_are_made_as_allowed,
    tokens_end_in_time, tokens_keep_their_own, versions_follow, versions_stay,
};
