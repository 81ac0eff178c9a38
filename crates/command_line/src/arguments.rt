//! Arguments of the command line, as `clap` takes them.

ghost use Rattle.std.specs.Prelude.{◌≡◌, false};
ghost use Rattle.clap.specs.Words.{rule_of};
ghost use Rattle.command_line.specs.CommandLine.{flag_rule, option_rule, repeated_rule, value_rule, values_rule};
ghost use Rattle.command_line.specs.CommandLine.{wanted};

use clap::{Arg, ArgAction};
use std::alloc::Global;

/// An option `--NAME VALUE`.
pub(crate) fn option<'a>(alloc: Global, name: &'a str, value: &'a str, help: &'a str) -> Arg<'a>
    ensures rule { rule_of result ≡ option_rule name.now }
    ensures local { result.global ≡ false }
{
    Arg::new(alloc, name)
        .long(name)
        .value_name(value)
        .help(help)
}

/// An option `--NAME VALUE` that must be given.
pub(crate) fn wanted_option<'a>(
    alloc: Global,
    name: &'a str,
    value: &'a str,
    help: &'a str,
) -> Arg<'a>
    ensures rule { rule_of result ≡ wanted (option_rule name.now) }
    ensures local { result.global ≡ false }
{
    option(alloc, name, value, help).required(true)
}

/// An option `--NAME VALUE` that may be given several times.
pub(crate) fn repeated_option<'a>(
    alloc: Global,
    name: &'a str,
    value: &'a str,
    help: &'a str,
) -> Arg<'a>
    ensures rule { rule_of result ≡ repeated_rule name.now }
    ensures local { result.global ≡ false }
{
    option(alloc, name, value, help).action(ArgAction::Append)
}

/// An option `--NAME` without a value.
pub(crate) fn flag<'a>(alloc: Global, name: &'a str, help: &'a str) -> Arg<'a>
    ensures rule { rule_of result ≡ flag_rule name.now }
    ensures local { result.global ≡ false }
{
    Arg::new(alloc, name)
        .long(name)
        .action(ArgAction::SetTrue)
        .help(help)
}

/// A value that may be left out.
pub(crate) fn value<'a>(alloc: Global, name: &'a str, shown: &'a str, help: &'a str) -> Arg<'a>
    ensures rule { rule_of result ≡ value_rule name.now }
    ensures local { result.global ≡ false }
{
    Arg::new(alloc, name).value_name(shown).help(help)
}

/// A value that must be given.
pub(crate) fn wanted_value<'a>(
    alloc: Global,
    name: &'a str,
    shown: &'a str,
    help: &'a str,
) -> Arg<'a>
    ensures rule { rule_of result ≡ wanted (value_rule name.now) }
    ensures local { result.global ≡ false }
{
    value(alloc, name, shown, help).required(true)
}

/// One value or more.
pub(crate) fn values<'a>(alloc: Global, name: &'a str, shown: &'a str, help: &'a str) -> Arg<'a>
    ensures rule { rule_of result ≡ values_rule name.now }
    ensures local { result.global ≡ false }
{
    value(alloc, name, shown, help).num_args(1..)
}

/// One value or more, of which one must be given.
pub(crate) fn wanted_values<'a>(
    alloc: Global,
    name: &'a str,
    shown: &'a str,
    help: &'a str,
) -> Arg<'a>
    ensures rule { rule_of result ≡ wanted (values_rule name.now) }
    ensures local { result.global ≡ false }
{
    values(alloc, name, shown, help).required(true)
}
