//! Folders of secrets, listed.

ghost use Rattle.std.specs.Prelude.{◌≡◌, IfOk, string_bytes};
ghost use Rattle.broker_types.specs.Broker.{Broker};
ghost use Rattle.broker_types.specs.Fault.{IsMemoryOrStorage};
ghost use Rattle.records.specs.Calls.{IsReading};
ghost use Rattle.records.specs.Children.{folder};
ghost use Rattle.records.specs.Parts.{of_secrets, Tells};
ghost use Rattle.records.specs.Table.{table};
ghost use Rattle.records.specs.Transaction.{IsHonest};
ghost use Rattle.kv2.specs.SecretRows as rows;
ghost use Rattle.kv2.specs.Secrets as secrets;

use crate::keys::secret_name;
use broker_types::{Fault, TextBuf};
use records::{Kind, RecordsTx, list_children};
use std::alloc::{AllocError, Global};

/// How the names of the secrets of a folder begin: the mount, a slash and the folder with its slash. The empty
/// path is for the whole mount.
fn folder_name(alloc: Global, mount: &str, path: &str) -> Result<String, AllocError>
    ensures { IfOk result (λ name. string_bytes name ≡ secrets.secret_name mount.now (folder path.now)) }
{
    let mut name = secret_name(alloc, mount, path)?;
    if !path.is_empty() {
        name.push_str("/")?;
    }
    Ok(name)
}

/// The immediate children of a folder of a mount, in the order of their bytes, each once: names, and folders
/// with a slash at their ends. The empty path is for the whole mount. There are none if nothing is in the
/// folder. It fails only if memory runs out or the storage fails (Vault's documentation, "KV secrets engine -
/// version 2 (API)", list secrets).
pub fn list<T: RecordsTx>(
    alloc: Global,
    tx: &mut T,
    mount: &str,
    path: &str,
) -> Result<Vec<TextBuf>, Fault>
    ensures found { IsHonest (T.seen tx.new) → IfOk result (λ names. names.items
        ≡ rows.children_in (T.seen tx.old).rows (secrets.secret_name mount.now (folder path.now))) }
    ensures told { IsHonest (T.seen tx.new) → (b : Broker) → Tells of_secrets (table (T.seen tx.old)) b
        → IfOk result (λ names. names.items ≡ secrets.list b mount.now path.now) }
    ensures call { IsReading (T.seen tx.old) (T.seen tx.new) result IsMemoryOrStorage }
{
    let name = folder_name(alloc, mount, path)?;
    list_children(alloc, tx, Kind::KvKey, name.as_str())
}
