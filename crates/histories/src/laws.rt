//! Laws over histories, each the contract of a function that does nothing.

ghost use Rattle.histories.specs.Allowed.{AllDoAllowed};
ghost use Rattle.histories.specs.Callers.{AllServeAllowed};
ghost use Rattle.histories.specs.Disabled.{AllDisabledMountsGo};
ghost use Rattle.histories.specs.Documented.{AreAsDocumented};
ghost use Rattle.histories.specs.Laws.{AllGiveOutNew, NoneIsGivenTwice, AllAreHandedOutOnce, RevocationLasts};
ghost use Rattle.histories.specs.Laws.{AnyGiveOutNew, NoneIsGivenTwiceByAny, AllStayUsed};
ghost use Rattle.histories.specs.Laws.{AllHandOutKept, AllAreTheReplies, EachEvolves, LaterOnesEvolved};
ghost use Rattle.histories.specs.Laws.{AllMadeAsAllowed, AllTokensEndInTime, TokensEndInTimeSinceStart};
ghost use Rattle.histories.specs.Laws.{AllLeasesAreOfCallers, AllOwnStays};
ghost use Rattle.histories.specs.KeepsLaws.{AllKeepLaws};
ghost use Rattle.histories.specs.KeptStay.{AllKeptResponsesStay};
ghost use Rattle.histories.specs.LeaseEnds.{AllLeasesStayRevoked};
ghost use Rattle.histories.specs.Open.{OpenMeansItsOwn, OpenChangesNoToken, TheseAreOpen};
ghost use Rattle.histories.specs.LeasePaths.{PathsEndLeases};
ghost use Rattle.histories.specs.MountPaths.{PathsOfIssued, PathsOfSecrets, PathsOfSettings};
ghost use Rattle.histories.specs.Paths.{CreatesAtPath, PathsMeanCommands};
ghost use Rattle.histories.specs.Refused.{RefusedChangeNothing, WrapNeedsTtl, PoliciesDecide};
ghost use Rattle.histories.specs.SecretsStay.{AllSecretsStay};
ghost use Rattle.histories.specs.Settings.{AllSettingsFollow};
ghost use Rattle.histories.specs.Shown.{AllAnswersShow};
ghost use Rattle.histories.specs.Statuses.{AllStatusesFollow};
ghost use Rattle.histories.specs.Versions.{AllVersionsFollow};
ghost use Rattle.histories.specs.WhyRefused.{AllTellWhy};

use broker_model::{operations_do_as_told, wrapping_commands_are_proper};
use mounts::{patterns_are_found_by_form, tables_are_in_order};
use policies::granted_as_said;
use token_tree::accessors_name_their_tokens;

/// A law: each request lets the broker evolve, and so do all between two of them. So what ended, or is gone, stays so.
pub fn requests_evolve()
    ensures each { EachEvolves }
    ensures between { LaterOnesEvolved }
{
    operations_do_as_told();
}

/// A law: the identifiers that requests give out are new, and no two of them are equal. Nothing else is given out: what
/// is in a place of identifiers after a request was there before, or the request gave it out. So from a start on, no
/// identifier is given out twice. For this no broker needs to be sound: what is given out is marked, so all that is in
/// a place later was given out.
pub fn identifiers_are_given_out_once()
    ensures since { AllGiveOutNew }
    ensures since_start { NoneIsGivenTwice }
    ensures of_any { AnyGiveOutNew }
    ensures of_any_start { NoneIsGivenTwiceByAny }
    ensures stay_used { AllStayUsed }
{
    operations_do_as_told();
}

/// A law: each 200 to an unwrap hands out a response that waited. That of an origin is handed out by at most one
/// request, before the end of its wrapping token, and through no wrapping token that an earlier request took out. No
/// wrapping token that ended is in a later state. What a look-up or a rewrap answers doesn't depend on the text that
/// waits (Vault's documentation, "Response wrapping").
pub fn responses_are_handed_out_once()
    ensures { AllAreHandedOutOnce }
{
    operations_do_as_told();
}

/// A law: a command that revokes is answered with 204, or refused, and each 204 to one is a revocation. A token whose
/// end has come, or that of one above it, ends at that event, which is denied to it. A token that ended, by a
/// revocation with all under it or in another way, is in no later state, nor are its cubbyhole and its leases, nor is a
/// lease whose own end has come; the others are as they were. Later requests of such a token are denied (Vault's
/// documentation, "Tokens", token hierarchies and orphan tokens).
pub fn revocation_lasts()
    ensures { RevocationLasts }
{
    operations_do_as_told();
}

/// A law: a command that ends leases, by their id, below a prefix, or with their mount, is answered with 204, or
/// refused. After a 204 no token has a lease that was named, and no later state has one with its identifier or its
/// credential (Vault's documentation, "Lease, renew, and revoke", "/sys/leases", "/sys/mounts").
pub fn leases_stay_revoked()
    ensures { AllLeasesStayRevoked }
{
    operations_do_as_told();
}

/// A law: what is handed out is what was kept. From a start on it is, byte for byte, what the request that made its
/// origin, and told its wrapping token, would have been answered without a wrap TTL, then and there, as a 200. And each
/// 200 to an ask with a wrap TTL is kept so, but that to a look-up, a rewrap or an unwrap (Vault's documentation,
/// "Response wrapping").
pub fn kept_replies_are_the_replies()
    ensures since { AllHandOutKept }
    ensures since_start { AllAreTheReplies }
{
    operations_do_as_told();
}

/// A law: a response that waits before an event waits unchanged after it, unless its time is over, or the event
/// revoked, spent, rewrapped or unwrapped its wrapping token; a rewrap moves it. It is given out by an unwrap that
/// means its wrapping token, and by nothing else (Vault's documentation, "Response wrapping").
pub fn kept_responses_stay()
    ensures { AllKeptResponsesStay }
{
    operations_do_as_told();
}

/// A law: an open request, which needs no caller, means a look-up, or a rewrap or an unwrap of its own client token,
/// and nothing else; and each of these is open. It spends no use and changes no token, beside what comes to its end at
/// that moment; nothing changes but which responses wait, and which identifiers were given out (Vault's documentation,
/// "/sys/wrapping").
pub fn open_requests_mean_their_own()
    ensures means { OpenMeansItsOwn }
    ensures these { TheseAreOpen }
    ensures leaves { OpenChangesNoToken }
{
    operations_do_as_told();
    wrapping_commands_are_proper();
    patterns_are_found_by_form();
    tables_are_in_order();
}

/// A law: each path of the table means its command. Those of `sys`, `auth` and `cubbyhole` do so whatever mounts there
/// are, and those below the name of another mount by its engine. So what a law says of an unwrap, a revocation or a
/// deletion, it says of these requests. And an ask that means a creation is one of the path that makes tokens so
/// (Vault's documentation, "/sys/wrapping", "Token auth method (API)", "/sys/leases", "/sys/policies", "/sys/mounts",
/// "KV secrets engine - version 2 (API)", "Cubbyhole secrets engine (API)").
pub fn paths_mean_their_commands()
    ensures commands { PathsMeanCommands }
    ensures ends_of_leases { PathsEndLeases }
    ensures secrets { PathsOfSecrets }
    ensures credentials { PathsOfIssued }
    ensures settings { PathsOfSettings }
    ensures creations { CreatesAtPath }
{
    patterns_are_found_by_form();
    tables_are_in_order();
}

/// A law: a request that is answered with neither 200 nor 204 changes nothing, beside what comes to its end at that
/// moment, but the response of a wrapping token that was its client token, or a use of its client token, which ends if
/// that was the last. A request to wrap is refused without a wrap TTL.
pub fn refused_requests_change_nothing()
    ensures nothing { RefusedChangeNothing }
    ensures wraps { WrapNeedsTtl }
{
    operations_do_as_told();
}

/// A law: a request that needs a caller is denied where the policies of its client token do not grant what it asks for;
/// where they do, its command alone decides (Vault's documentation, "Policies").
pub fn policies_decide()
    ensures { PoliciesDecide }
{}

/// A law: as long as a secret exists, no number of a version is given again, and what a version holds does not change,
/// but that it holds nothing once it is destroyed (Vault's documentation, "KV secrets engine - version 2").
pub fn versions_stay()
    ensures { AllSecretsStay }
{
    operations_do_as_told();
}

/// A law: what a secret holds follows the writes, deletions and destructions that were asked for, and each that
/// succeeded was done. A read shows the version that was asked for (Vault's documentation, "KV secrets engine - version
/// 2").
pub fn versions_follow()
    ensures { AllVersionsFollow }
{
    operations_do_as_told();
}

/// A law: after a 204 to the disabling of a mount nothing is left of it: no secret, no role, and no lease of any token.
/// What is of other mounts is as it was (Vault's documentation, "/sys/mounts", disable secrets engine).
pub fn disabled_mounts_leave_nothing()
    ensures { AllDisabledMountsGo }
{
    operations_do_as_told();
}

/// A law: a role, a policy or a mount changes by a request for it alone, and a role also goes with its mount. It
/// becomes what that request asks for, and each that was answered with 204 was done (Vault's documentation,
/// "/sys/policies", "/sys/mounts").
pub fn settings_follow()
    ensures { AllSettingsFollow }
{
    operations_do_as_told();
}

/// A law: a request that is not open is denied, or its client token is a token whose policies grant what it asks for.
/// Without a client token that is known nothing is done, and a wrapping token is taken out (Vault's documentation,
/// "Policies", "Response wrapping").
pub fn only_allowed_requests_are_served()
    ensures { AllServeAllowed }
{
    policies_decide();
}

/// A law: a command that tells nothing is answered with 204, or refused; any other with 200, or refused, but that a
/// read of a version that is deleted or destroyed is a 404 which shows nothing of what it held. A write of an object
/// without members to a cubbyhole, a change of `root`, the removal of `default` and the disabling of a mount that is
/// always there are refused (Vault's documentation, "HTTP API", HTTP status codes; "Policies", root policy).
pub fn statuses_follow()
    ensures { AllStatusesFollow }
{}

/// A law: a 200 to a look-up of a token, of an accessor, of a lease, of a role, of a policy, of settings or of a
/// secret's metadata shows what the broker has, and so does one to a list of secrets, of policies, of accessors or of
/// mounts. One to a renewal tells of the new end, and one that asks whether a credential is valid says whether a token
/// has its lease (Vault's documentation, "Token auth method (API)", "/sys/leases", "/sys/policies", "/sys/mounts", "KV
/// secrets engine - version 2 (API)").
pub fn look_ups_show_what_there_is()
    ensures { AllAnswersShow }
{
    operations_do_as_told();
    accessors_name_their_tokens();
}

/// A law: of requests without a wrap TTL that policies allow, revocations by a text, deletions and others are carried
/// out. So are a look-up, a read, a list, a renewal and a revocation by accessor of what is there, a write that
/// check-and-set lets pass, a change of a policy, a role or a mount that may be made, a creation by a token that may
/// make it, and `creds` of a role that is there. A wrap TTL changes none of that where the identifiers are new. An
/// unwrap of a response that waits hands it out, with a wrap TTL too (Vault's documentation, "Tokens", "Response
/// wrapping", "Lease, renew, and revoke", "KV secrets engine - version 2 (API)").
pub fn allowed_requests_are_carried_out()
    ensures { AllDoAllowed }
{
    policies_decide();
    accessors_name_their_tokens();
    granted_as_said();
}

/// A law: a request without a wrap TTL that policies grant, and which asks for what is not there, is refused with 404,
/// or 403 if that is a token, or 400 if it is a lease; so are with 400 a renewal of a token without end, and a write
/// that check-and-set does not let pass (Vault's documentation, "HTTP API", HTTP status codes; "KV secrets engine -
/// version 2 (API)").
pub fn refusals_tell_why()
    ensures { AllTellWhy }
{
    policies_decide();
}

/// A law: only `root` lets do everything; the words of a policy are those of the documentation; a verb asks for its
/// capability, and a write for `create` exactly where it makes an object of a cubbyhole or a secret that is not there;
/// a look-up by accessor does not tell the token's text; and the list of a folder has the first part of each path in
/// it, and nothing else (Vault's documentation, "Policies", "Token auth method (API)", "KV secrets engine - version 2
/// (API)", list secrets).
pub fn permission_is_as_documented()
    ensures { AreAsDocumented }
{}

/// A law: a token is made by a caller without a limit of uses. That caller is a root token, or has `sudo` on the path
/// that it asks, or the new token has none but its policies, no period, and it as parent, unless the path makes tokens
/// without. The policy `root` comes from a token that has it, and a token without end from one without end (Vault's
/// documentation, "Token auth method (API)", create token).
pub fn tokens_are_made_as_allowed()
    ensures { AllMadeAsAllowed }
{
    operations_do_as_told();
    granted_as_said();
    paths_mean_their_commands();
}

/// A law: in each state, a token of `root`, without a longest time of its own and without a period, may have no end.
/// Each other ends: by its own longest time after its issue, if it has one; by its period from now on, if it is
/// periodic; and else by 32 days after its issue (Vault's documentation, "Tokens", token time-to-live, periodic tokens,
/// explicit max TTLs).
pub fn tokens_end_in_time()
    ensures since { AllTokensEndInTime }
    ensures since_start { TokensEndInTimeSinceStart }
{
    operations_do_as_told();
}

/// A law: a lease that a token has was its own before the request, with the same credential, or was issued to it by the
/// request: its client token was this one, and the use that it spent was not its last (Vault's documentation, "Lease,
/// renew, and revoke").
pub fn leases_are_of_their_callers()
    ensures { AllLeasesAreOfCallers }
{
    operations_do_as_told();
}

/// A law: a token goes only by its end, by a revocation, or with the last use of a client token, each of itself or of
/// one above it; `revoke-orphan` ends none below. As long as it stands, its end changes by a renewal of it, its uses by
/// its own requests, its parent by `revoke-orphan` of that, its cubbyhole by its own writes and deletions, each of its
/// leases by a renewal or a revocation of that lease or by one that is issued to it, and nothing else of it does. A
/// cubbyhole is read and listed by its own token (Vault's documentation, "Tokens", "Cubbyhole secrets engine").
pub fn tokens_keep_their_own()
    ensures { AllOwnStays }
{
    operations_do_as_told();
}

/// A law: whatever was asked of a broker, one request after another, keeps the laws over a history together: those of
/// what is given out, handed out and kept, of tokens and leases, and of secrets and mounts. The answers of a run and of
/// a server say so of all that their connections asked.
pub fn all_that_is_asked_keeps_the_laws()
    ensures { AllKeepLaws }
{
    identifiers_are_given_out_once();
    responses_are_handed_out_once();
    kept_replies_are_the_replies();
    kept_responses_stay();
    revocation_lasts();
    leases_stay_revoked();
    tokens_are_made_as_allowed();
    tokens_end_in_time();
    leases_are_of_their_callers();
    tokens_keep_their_own();
    versions_follow();
    disabled_mounts_leave_nothing();
    settings_follow();
    only_allowed_requests_are_served();
    statuses_follow();
    allowed_requests_are_carried_out();
    refusals_tell_why();
    look_ups_show_what_there_is();
}
