//! Labels of samples.

use std::marker::Model;

/// A label, with its value. Contracts see both texts.
#[derive(Drop)]
pub(crate) struct Label<'a> {
    pub(crate) name: &'static str,
    pub(crate) value: &'a str,
}

impl<'a> Model for Label<'a> {
    ghost use Rattle.std.specs.Prelude.{ℕ, List};

    ghost Value = { List ℕ × List ℕ };

    ghost view = { λ l. (l.name.now, l.value.now) };
}
