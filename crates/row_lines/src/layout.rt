//! Which fields the bodies of a kind have, in their order.

ghost use Rattle.std.specs.Prelude.{◌≡◌, option_map};
ghost use Rattle.row_lines.specs.Layouts as spec;
ghost use Rattle.row_lines.specs.Layouts.{fields_in};

use records::Kind;

/// How a field is spelled in a body.
#[derive(Clone, Copy, Debug, PartialEq, Eq)]
pub(crate) enum Form {
    Number,
    OptionalNumber,
    Flag,
    Text,
    LongText,
    /// A list of texts.
    Texts,
    /// Names and values, the names ascending by bytes, each once.
    Pairs,
}

/// A field, by what a line calls it.
#[derive(Clone, Copy)]
pub(crate) struct Field(pub(crate) &'static str, pub(crate) Form);

const CLOCK: &[Field] = &[Field("moment", Form::Number)];

const TOKEN: &[Field] = &[
    Field("accessor", Form::Text),
    Field("policies", Form::Texts),
    Field("issued", Form::Number),
    Field("ttl", Form::Number),
    Field("explicit_max_ttl", Form::Number),
    Field("period", Form::Number),
    Field("uses_left", Form::OptionalNumber),
    Field("metadata", Form::Pairs),
];

const ACCESSOR: &[Field] = &[Field("holder", Form::Number)];

const OBJECT: &[Field] = &[Field("object", Form::Text)];

const LEASE: &[Field] = &[
    Field("issued", Form::Number),
    Field("ttl", Form::Number),
    Field("max_ttl", Form::Number),
    Field("renewed", Form::OptionalNumber),
    Field("credential", Form::Text),
];

const OLD_SECRET: &[Field] = &[
    Field("current", Form::Number),
    Field("created", Form::Number),
    Field("updated", Form::Number),
];

const SECRET: &[Field] = &[
    Field("current", Form::Number),
    Field("created", Form::Number),
    Field("updated", Form::Number),
    Field("cas_required", Form::Flag),
    Field("max_versions", Form::Number),
    Field("custom_metadata", Form::Pairs),
];

const VERSION: &[Field] = &[
    Field("created", Form::Number),
    Field("deleted", Form::OptionalNumber),
    Field("destroyed", Form::Flag),
    Field("secret", Form::Text),
];

const RESPONSE: &[Field] = &[
    Field("accessor", Form::Text),
    Field("created", Form::Number),
    Field("ttl", Form::Number),
    Field("path", Form::Text),
    Field("origin", Form::Text),
    Field("reply", Form::LongText),
];

const MOUNT: &[Field] = &[
    Field("type", Form::Text),
    Field("cas_required", Form::Flag),
    Field("max_versions", Form::Number),
];

const POLICY: &[Field] = &[Field("policy", Form::Text)];

const ROLE: &[Field] = &[Field("ttl", Form::Number), Field("max_ttl", Form::Number)];

/// The fields of a body of a kind in format 1.
fn first_layout(kind: Kind) -> &'static [Field]
    ensures { fields_in result.now ≡ spec.first_layout kind }
{
    match kind {
        Kind::Clock => CLOCK,
        Kind::Used | Kind::Credential => &[],
        Kind::Token => TOKEN,
        Kind::Accessor => ACCESSOR,
        Kind::Cubby => OBJECT,
        Kind::Lease => LEASE,
        Kind::KvKey => OLD_SECRET,
        Kind::KvVersion => VERSION,
        Kind::Waiting => RESPONSE,
        Kind::Mount => MOUNT,
        Kind::Policy => POLICY,
        Kind::Role => ROLE,
    }
}

/// The fields of a body of a kind in format 2, which secrets alone have.
fn second_layout(kind: Kind) -> Option<&'static [Field]>
    ensures { option_map (λ fs. fields_in fs.now) result ≡ spec.second_layout kind }
{
    match kind {
        Kind::KvKey => Some(SECRET),
        _ => None,
    }
}

/// The fields of a body of a kind in a format, if the kind has this format.
pub(crate) fn layout(kind: Kind, format: u64) -> Option<&'static [Field]>
    ensures { option_map (λ fs. fields_in fs.now) result ≡ spec.layout kind format }
{
    if format == 1 {
        Some(first_layout(kind))
    } else if format == 2 {
        second_layout(kind)
    } else {
        None
    }
}
