//! Laws of the definitions, each the contract of a function that does nothing.

ghost use Rattle.std.specs.Prelude.{◌≡◌, ℕ, List, Option, false};
ghost use Rattle.broker_types.specs.Text.{Text, same};
ghost use Rattle.broker_types.specs.Broker.{Broker};
ghost use Rattle.broker_types.specs.Sound.{Forms, Sound};
ghost use Rattle.kv2.specs.Laws.{WriteKeepsSoundness, ChangesKeepSoundness, RemovalsKeepSoundness};
ghost use Rattle.kv2.specs.Laws.{MetadataKeepSoundness, SettingsKeepSoundness, SecretsEvolve, SettingsEvolve};
ghost use Rattle.kv2.specs.Laws.{NumbersAreNew, NumbersStay, OthersStay, OthersAreKept, OtherMountsStay};
ghost use Rattle.kv2.specs.Laws.{version_at, HasNoSecret};
ghost use Rattle.kv2.specs.Laws.{WriteRestoresNothing, ChangesRestoreNothing, OldestIsSmallest};
ghost use Rattle.kv2.specs.Laws.{MetadataAreSet, MetadataStayAtWrites, MetadataStay};
ghost use Rattle.kv2.specs.Secrets.{secret_name};
ghost use Rattle.kv2.specs.Versions.{Settings};

/// A law: the operations leave a sound broker sound, whoever may have spent its last use.
pub fn operations_keep_soundness()
    ensures written { WriteKeepsSoundness }
    ensures changed { (forms : Forms) (who : Option Text) (b : Broker) (mount path : Text) (ns : List ℕ)
        → Sound forms who b → ChangesKeepSoundness forms who b mount path ns }
    ensures removed { (forms : Forms) (who : Option Text) (b : Broker) (mount path : Text) → Sound forms who b
        → RemovalsKeepSoundness forms who b mount path }
    ensures described { MetadataKeepSoundness }
    ensures set { SettingsKeepSoundness }
{}

/// A law: the operations let a broker evolve.
pub fn operations_evolve()
    ensures secrets { SecretsEvolve }
    ensures settings { SettingsEvolve }
{}

/// A law: a version's number is never given twice to a key that is there (Vault's documentation, "KV secrets
/// engine - version 2").
pub fn numbers_are_given_once()
    ensures written { NumbersAreNew }
    ensures changed { (b : Broker) (mount path : Text) (ns : List ℕ) → NumbersStay b mount path ns }
{}

/// A law: a call on one key changes no other, and a mount that is dropped takes no key of another mount along.
pub fn other_keys_stay()
    ensures written { OthersStay }
    ensures changed { (b : Broker) (mount path : Text) (ns : List ℕ) (q : Text)
        → same q (secret_name mount path) ≡ false → OthersAreKept b mount path ns q }
    ensures dropped { OtherMountsStay }
{}

/// A law: the secret of a version that is destroyed never comes back (Vault's documentation, "KV secrets engine -
/// version 2 (API)", destroy secret versions).
pub fn destroyed_secrets_stay_away()
    ensures written { WriteRestoresNothing }
    ensures changed { (b : Broker) (mount path : Text) (ns : List ℕ) (n : ℕ)
        → HasNoSecret (version_at b mount path n) → ChangesRestoreNothing b mount path ns n }
{}

/// A law: the custom metadata of a secret are those that were given last, and to give them changes no version (Vault's
/// documentation, "KV secrets engine - version 2 (API)", create/update metadata).
pub fn custom_metadata_are_the_last_given()
    ensures set { (b : Broker) (mount path : Text) (given : Settings) → MetadataAreSet b mount path given }
    ensures written { MetadataStayAtWrites }
    ensures changed { (b : Broker) (mount path : Text) (ns : List ℕ) → MetadataStay b mount path ns }
{}

/// A law: the oldest version that is told of a key is the smallest number that is kept, if that is above 1; else
/// it is 0 (Vault's documentation, "KV secrets engine - version 2 (API)", read secret metadata).
pub fn oldest_versions_are_smallest()
    ensures { OldestIsSmallest }
{}
