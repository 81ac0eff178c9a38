//! Laws of the definitions, each the contract of a function that does nothing.

ghost use Rattle.policies.specs.Examples.{DeniesOne, ListsFolders, ListsInOrder, AllowsPrefixes, Allow, Refuses};
ghost use Rattle.policies.specs.Laws.{OnlyWhatIsGranted, AllThatIsGranted, RootMayDoAll};
ghost use Rattle.policies.specs.Laws.{NothingWithoutPolicies, OrderDoesNotMatter, OthersDoNotMatter};
ghost use Rattle.policies.specs.Laws.{ExactComesFirst, FolderComesFirst, ThenThePath, PrefixIsLongest};
ghost use Rattle.policies.specs.Laws.{ChosenIsNamed, PrefixIsFound, ExactIsThePath};
ghost use Rattle.policies.specs.Laws.{AbsentGrantNothing, SetKeepsSoundness, DeleteKeepsSoundness, PoliciesEvolve};
ghost use Rattle.policies.specs.Laws.{FirstPolicyIsRead, PoliciesAreTold};

/// A law: a caller may do exactly what a policy of its own names for the chosen pattern, and never where one of its
/// policies says `deny` for that pattern; with the policy `root` it may do everything.
pub fn granted_as_said()
    ensures only { OnlyWhatIsGranted }
    ensures all { AllThatIsGranted }
    ensures root { RootMayDoAll }
{}

/// A law: without policies nothing is allowed; the order of a caller's policies does not matter; and neither does a
/// policy that the caller does not have, nor one that is not there.
pub fn only_the_callers_policies()
    ensures none { NothingWithoutPolicies }
    ensures order { OrderDoesNotMatter }
    ensures others { OthersDoNotMatter }
    ensures absent { AbsentGrantNothing }
{}

/// A law: the exact pattern comes first, and else the longest prefix. For LIST the exact pattern of the path and a
/// slash comes before that of the path. A rule is about what is chosen, and something is chosen if a rule is about a
/// pattern that matches.
pub fn patterns_are_chosen_in_order()
    ensures exact { ExactComesFirst }
    ensures folder { FolderComesFirst }
    ensures path { ThenThePath }
    ensures prefix { PrefixIsLongest }
    ensures named { ChosenIsNamed }
    ensures found { PrefixIsFound }
    ensures own_path { ExactIsThePath }
{}

/// A law: setting and deleting a policy leaves a sound broker sound, whoever may have spent its last use.
pub fn edits_keep_soundness()
    ensures set { SetKeepsSoundness }
    ensures deleted { DeleteKeepsSoundness }
{}

/// A law: a change of policies lets a broker evolve.
pub fn edits_evolve()
    ensures { PoliciesEvolve }
{}

/// A law: the policy `default` of the start is a policy.
pub fn first_policy_is_read()
    ensures { FirstPolicyIsRead }
{}

/// A law: the rows of policies that a broker has tell its policies, and they alone do.
pub fn policies_are_told()
    ensures { PoliciesAreTold }
{}

/// Computed examples: what a few policies allow, and what a few texts are read as.
pub fn examples()
    ensures denies_one { DeniesOne }
    ensures lists_folders { ListsFolders }
    ensures lists_in_order { ListsInOrder }
    ensures allows_prefixes { AllowsPrefixes }
    ensures allow { Allow }
    ensures refuses { Refuses }
{}
