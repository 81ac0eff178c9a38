//! A source read as a whole, before any of its lines is run.

ghost use Rattle.std.specs.Prelude.{◌≡◌, ◌⊎◌, ◌+◌, IfOk, IfErr, IsTrue};
ghost use Rattle.std.specs.Io.KnownBytes.{Consumes, IsAtEnd};

use endpoints::Source;
use std::alloc::{AllocError, Global};

/// Why the input was not read to its end.
#[derive(Clone, Copy, Debug, PartialEq, Eq)]
pub enum Unread {
    /// Memory ran out.
    Memory,
    /// A pull failed, or there were 4,294,967,296 of them.
    Failed,
}

impl From<AllocError> for Unread {
    ghost use Rattle.std.specs.Prelude.{◌≡◌};
    ghost use Rattle.replay.specs.declared.input.Unread.TheVariants.{Memory};

    ghost from_gives = { λ _ unread. unread ≡ Memory };

    fn from(_: AllocError) -> Unread {
        Unread::Memory
    }
}

/// All bytes that the source has left. It fails if memory runs out, if a pull failed, or after 4,294,967,296 pulls.
pub fn read_to_end<R: Source>(alloc: Global, reader: &mut R) -> Result<Vec<u8>, Unread>
    ensures ok { IfOk result (λ bytes. Consumes (R.left reader.old) (R.left reader.new) bytes.items
        × IsAtEnd (R.left reader.new)) }
    ensures err { IfErr result (λ unread. unread ≡ Unread.Failed
        → IsTrue (R.has_failed reader.new)
        ⊎ (R.pulls reader.new ≡ R.pulls reader.old + 4294967296)) }
{
    let mut bytes = Vec::new(alloc);
    let mut buffer = [0u8; 8192];
    for _ in 0..4_294_967_296u64 {
        let Ok(count) = reader.pull(&mut buffer) else {
            return Err(Unread::Failed);
        };
        if count == 0 {
            return Ok(bytes);
        }
        bytes.extend_from_slice(&buffer[..count])?;
    }
    Err(Unread::Failed)
}
