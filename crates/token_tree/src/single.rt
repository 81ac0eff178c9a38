//! Single tokens: looked up, made, and changed.

ghost use Rattle.std.specs.Prelude.{◌≡◌, Some, option_map, IfOk, IfErr, OnOk};
ghost use Rattle.std.specs.FinMap as fin;
ghost use Rattle.broker_types.specs.Broker.{Broker};
ghost use Rattle.broker_types.specs.Evolves.{IsNew};
ghost use Rattle.broker_types.specs.Fault.{IsMemoryOrStorage};
ghost use Rattle.broker_types.specs.Map.{get, change};
ghost use Rattle.broker_types.specs.IdentifierPlaces.{token_identifier, AllUsed};
ghost use Rattle.broker_types.specs.Sound.{IsEnd};
ghost use Rattle.broker_types.specs.Spending as spending;
ghost use Rattle.broker_types.specs.Token.{Token};
ghost use Rattle.records.specs.declared.holder.Holder.TheVariants as holder;
ghost use Rattle.records.specs.declared.kind.Kind.TheVariants as kind;
ghost use Rattle.records.specs.Calls.{IsReading, IsChange, IsReadFault, OfEachBroker, IsCall};
ghost use Rattle.records.specs.Parts.{of_tokens, Tells, KeepsOthers};
ghost use Rattle.records.specs.Ranges.{IsTokenInRange};
ghost use Rattle.records.specs.RowReaders.{IsSomeIn};
ghost use Rattle.records.specs.RowForms.{entry_row};
ghost use Rattle.records.specs.Table.{with_row, table};
ghost use Rattle.records.specs.TokenEntry.{token_entry};
ghost use Rattle.records.specs.Transaction.{IsHonest};
ghost use Rattle.token_tree.specs.TokenRows.{IsTokenAt, IsDamagedToken, SpendsUse, with_created};
ghost use Rattle.token_tree.specs.TokenRows.{renewed_entry};
ghost use Rattle.token_tree.specs.Tokens as tokens;
ghost use Rattle.token_tree.specs.Tokens.{RepresentsTokens, with_token};

use broker_types::Fault;
use records::{Due, Holder, Kind, RecordsTx, TokenRecord, read_token, write_accessor, write_token};
use std::alloc::Global;

/// A token, if there is one of this text. It fails as `Damaged` if its row is not one of a token, and also if memory
/// runs out or the storage fails (Vault's documentation, "Tokens", lookup).
pub fn find<T: RecordsTx>(
    alloc: Global,
    tx: &mut T,
    token: &str,
) -> Result<Option<TokenRecord>, Fault>
    ensures found { IsHonest (T.seen tx.new) → IfOk result (IsTokenAt (table (T.seen tx.old)) token.now) }
    ensures told { OfEachBroker RepresentsTokens (T.seen tx.old) (T.seen tx.new) (λ b.
        IfOk result (λ found. found ≡ option_map token_entry (get b.tokens token.now))) }
    ensures in_range { IfOk result (IsSomeIn IsTokenInRange) }
    ensures wants { OfEachBroker RepresentsTokens (T.seen tx.old) (T.seen tx.new)
        (λ b. IfErr result IsMemoryOrStorage) }
    ensures call { IsReading (T.seen tx.old) (T.seen tx.new) result
        (IsReadFault (IsHonest (T.seen tx.new) → IsDamagedToken (table (T.seen tx.old)) token.now)) }
{
    let Some(kept) = tx.get(Kind::Token, token)? else {
        return Ok(None);
    };
    Ok(Some(read_token(alloc, &kept)?))
}

/// Puts the row of a token.
fn put_token<T: RecordsTx>(
    alloc: Global,
    tx: &mut T,
    token: &str,
    entry: &TokenRecord,
) -> Result<(), Fault>
    requires { IsTokenInRange entry.now }
    ensures rows { IsHonest (T.seen tx.new) → OnOk result ((T.seen tx.new).rows
        ≡ fin.insert (T.seen tx.old).rows (kind.Token, token.now) (entry_row entry.now)) }
    ensures call { IsCall (T.seen tx.old) (T.seen tx.new) result IsMemoryOrStorage }
{
    let row = write_token(alloc, entry)?;
    tx.put(Kind::Token, token, row)
}

/// Makes a token. Neither its identifier nor that of its accessor was given out before. It fails only if memory runs
/// out or the storage fails (Vault's documentation, "Tokens", create).
pub fn create<T: RecordsTx>(
    alloc: Global,
    tx: &mut T,
    token: &str,
    entry: &TokenRecord,
) -> Result<(), Fault>
    requires { IsTokenInRange entry.now }
    ensures rows { IsHonest (T.seen tx.new) → OnOk result (table (T.seen tx.new)
        ≡ with_created (table (T.seen tx.old)) token.now entry.now) }
    ensures told { OfEachBroker RepresentsTokens (T.seen tx.old) (T.seen tx.new) (λ b.
        (x : Token) → token_entry x ≡ entry.now
        → AllUsed b → IsNew b (token_identifier token.now) → IsNew b x.accessor
        → OnOk result (Tells of_tokens (table (T.seen tx.new)) (with_token b token.now x))) }
    ensures call { IsChange (KeepsOthers of_tokens) (T.seen tx.old) (T.seen tx.new) result IsMemoryOrStorage }
{
    put_token(alloc, tx, token, entry)?;
    let row = write_accessor(alloc, token, Holder::Token)?;
    tx.put(Kind::Accessor, entry.accessor.as_str(), row)
}

/// Puts the row of a token that is there, changed, with the same accessor.
fn rewrite<T: RecordsTx>(
    alloc: Global,
    tx: &mut T,
    token: &str,
    entry: &TokenRecord,
) -> Result<(), Fault>
    requires { IsTokenInRange entry.now }
    ensures rows { IsHonest (T.seen tx.new) → OnOk result (table (T.seen tx.new)
        ≡ with_row (table (T.seen tx.old)) kind.Token token.now (entry_row entry.now)) }
    ensures told { IsHonest (T.seen tx.new) → (b : Broker) (x : Token) (f : Token → Token)
        → Tells of_tokens (table (T.seen tx.old)) b → get b.tokens token.now ≡ Some x
        → token_entry (f x) ≡ entry.now → ((y : Token) → (f y).accessor ≡ y.accessor)
        → OnOk result (Tells of_tokens (table (T.seen tx.new)) (record b { tokens = change b.tokens token.now f })) }
    ensures call { IsChange (KeepsOthers of_tokens) (T.seen tx.old) (T.seen tx.new) result IsMemoryOrStorage }
{
    put_token(alloc, tx, token, entry)
}

/// Takes one use from a token whose uses are limited, and answers what its row says then. Any other token stays as it
/// is, and an unknown text changes nothing. It fails as `Damaged` if the row of the token is not one, and also if
/// memory runs out or the storage fails (Vault's documentation, "Tokens", use limits).
pub fn spend<T: RecordsTx>(
    alloc: Global,
    tx: &mut T,
    token: &str,
) -> Result<Option<TokenRecord>, Fault>
    ensures rows { IsHonest (T.seen tx.new)
        → IfOk result (SpendsUse token.now (table (T.seen tx.old)) (table (T.seen tx.new))) }
    ensures told { OfEachBroker RepresentsTokens (T.seen tx.old) (T.seen tx.new) (λ b.
        OnOk result (Tells of_tokens (table (T.seen tx.new)) (spending.spend b token.now))) }
    ensures left { OfEachBroker RepresentsTokens (T.seen tx.old) (T.seen tx.new) (λ b.
        IfOk result (λ left. left ≡ option_map token_entry (get (spending.spend b token.now).tokens token.now))) }
    ensures in_range { IfOk result (IsSomeIn IsTokenInRange) }
    ensures wants { OfEachBroker RepresentsTokens (T.seen tx.old) (T.seen tx.new)
        (λ b. IfErr result IsMemoryOrStorage) }
    ensures call { IsChange (KeepsOthers of_tokens) (T.seen tx.old) (T.seen tx.new) result
        (IsReadFault (IsHonest (T.seen tx.new) → IsDamagedToken (table (T.seen tx.old)) token.now)) }
{
    let Some(mut record) = find(alloc, tx, token)? else {
        return Ok(None);
    };
    let Some(uses) = record.uses_left else {
        return Ok(Some(record));
    };
    record.uses_left = Some(uses.saturating_sub(1));
    rewrite(alloc, tx, token, &record)?;
    Ok(Some(record))
}

/// Gives a token that was found, and whose row still says so, another end, which is no further ahead than ends are set.
/// It answers what its row says then. It fails only if memory runs out or the storage fails (Vault's documentation,
/// "Tokens", renew).
pub fn renew<T: RecordsTx>(
    alloc: Global,
    tx: &mut T,
    token: &str,
    mut found: TokenRecord,
    ends: Due,
) -> Result<TokenRecord, Fault>
    requires near { IsEnd ends }
    requires in_range { IsTokenInRange found }
    requires there { IsHonest (T.seen tx.old) → IsTokenAt (table (T.seen tx.old)) token.now (Some found) }
    ensures rows { IsHonest (T.seen tx.new) → OnOk result (table (T.seen tx.new)
        ≡ with_row (table (T.seen tx.old)) kind.Token token.now (entry_row (renewed_entry ends found))) }
    ensures told { OfEachBroker RepresentsTokens (T.seen tx.old) (T.seen tx.new) (λ b.
        Some found ≡ option_map token_entry (get b.tokens token.now)
        → OnOk result (Tells of_tokens (table (T.seen tx.new)) (tokens.renew b token.now ends))) }
    ensures renewed { IfOk result (λ renewed. renewed ≡ renewed_entry ends found) }
    ensures call { IsChange (KeepsOthers of_tokens) (T.seen tx.old) (T.seen tx.new) result IsMemoryOrStorage }
{
    found.ends = Some(ends);
    rewrite(alloc, tx, token, &found)?;
    Ok(found)
}
