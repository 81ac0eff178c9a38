//! What words may give instead of a body: a mistake with a text for the user, or a fault.

use broker_types::Fault;
use std::alloc::AllocError;

/// Why words give no body.
#[derive(Debug, Drop)]
pub enum NoBody {
    /// The words are wrong.
    Mistake(BodyMistake),
    /// Memory ran out.
    Fault(Fault),
}

impl From<AllocError> for NoBody {
    ghost use Rattle.std.specs.Prelude.{◌≡◌};
    ghost use Rattle.broker_types.specs.declared.fault.Fault.TheVariants.{Memory};
    ghost use Rattle.command_line.specs.declared.no_body.NoBody.TheVariants as reason;

    ghost from_gives = { λ _ found. found ≡ reason.Fault Memory };

    fn from(_: AllocError) -> NoBody {
        NoBody::Fault(Fault::Memory)
    }
}

/// What is wrong with words.
#[derive(Clone, Copy, Debug, PartialEq, Eq)]
pub enum BodyMistake {
    /// One of several words is not NAME=VALUE.
    NoMember,
    /// What follows `:=` is not JSON.
    NoJson,
    /// A number is a float.
    Float,
    /// The data of a version is not an object.
    NoObject,
}

impl BodyMistake {
    /// What the user is told.
    pub fn text(self) -> &'static str {
        match self {
            BodyMistake::NoMember => {
                "each of several words is NAME=VALUE or NAME:=JSON, as in user=anna ports:=[80,443]"
            }
            BodyMistake::NoJson => "what follows := is JSON, as in ports:=[80,443]",
            BodyMistake::Float => {
                "a number is whole and of 64 bits: write another one as a text, as in share=0.5"
            }
            BodyMistake::NoObject => {
                "the data of a version is NAME=VALUE or a JSON object, as in user=anna or {\"user\":\"anna\"}"
            }
        }
    }
}
