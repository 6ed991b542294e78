//! The program's arguments: the command that they name.

ghost use Rattle.std.specs.Prelude.{◌≢◌, [], ◌∷◌, codes, IfNone, IfSome};
ghost use Rattle.text_model.specs.Texts.{texts_of};
ghost use Rattle.commands.specs.Arguments.{AreArgumentsOf, AreNoArguments};

use crate::list_options::{ExpandArguments, expand_arguments};
use crate::service::Service;

/// A command with its arguments. A query is the text itself; REGISTRY, RULES, CODE, TABLE, OLD and NEW are paths.
#[derive(Clone, Copy)]
pub enum Command<'a> {
    /// `expand [--list NAME].. TEMPLATE QUERY`
    Expand(ExpandArguments<'a, 'a>),
    /// `link RULES QUERY`
    Link(&'a str, &'a str),
    /// `compile RULES CODE`
    Compile(&'a str, &'a str),
    /// `verify CODE`
    Verify(&'a str),
    /// `show CODE`
    Show(&'a str),
    /// `upgrade OLD NEW`
    Upgrade(&'a str, &'a str),
    /// `run CODE QUERY`
    Run(&'a str, &'a str),
    /// `inspect TABLE`
    Inspect(&'a str),
    /// `lint RULES TABLE`
    Lint(&'a str, &'a str),
    /// `explain RULES TABLE QUERY`
    Explain(&'a str, &'a str, &'a str),
    /// `resolve REGISTRY QUERY`
    Resolve(&'a str, &'a str),
    /// `read QUERY`
    Read(&'a str),
    /// `find REGISTRY QUERY`
    Find(&'a str, &'a str),
    /// `serve REGISTRY PORT COUNT`
    Serve(Service<'a>),
    /// `--help`, `-h` or `help`
    Help,
    /// `--version`
    Version,
}

/// The command that the arguments after the program's name denote; `None` for an unknown command or wrong arguments.
pub fn parse<'a>(arguments: &'a [&'a str]) -> Option<Command<'a>>
    ensures some { IfSome result (AreArgumentsOf (texts_of arguments.now)) }
    ensures none { IfNone result ((command : Command) → ¬ (AreArgumentsOf (texts_of arguments.now) command)) }
{
    match arguments {
        [] => None,
        ["expand", rest @ ..] => Some(Command::Expand(expand_arguments(rest)?)),
        [name, rest @ ..] => other_command(name, rest),
    }
}

/// The command of this name, except `expand`, with these arguments.
fn other_command<'a>(name: &str, rest: &'a [&'a str]) -> Option<Command<'a>>
    requires { name.now ≢ codes "expand" }
    ensures some { IfSome result (AreArgumentsOf (name.now ∷ texts_of rest.now)) }
    ensures none { IfNone result (AreNoArguments (name.now ∷ texts_of rest.now)) }
{
    match rest {
        [] => of_no_argument(name),
        [argument] => of_one_argument(name, argument),
        [first, second] => of_two_arguments(name, first, second),
        [first, second, third] => of_three_arguments(name, first, second, third),
        _ => None,
    }
}

/// The command of this name, except `expand`, without arguments.
fn of_no_argument<'a>(name: &str) -> Option<Command<'a>>
    requires { name.now ≢ codes "expand" }
    ensures some { IfSome result (AreArgumentsOf (name.now ∷ [])) }
    ensures none { IfNone result (AreNoArguments (name.now ∷ [])) }
{
    match name {
        "--help" | "-h" | "help" => Some(Command::Help),
        "--version" => Some(Command::Version),
        _ => None,
    }
}

/// The command of this name, except `expand`, with one argument.
fn of_one_argument<'a>(name: &str, argument: &'a str) -> Option<Command<'a>>
    requires { name.now ≢ codes "expand" }
    ensures some { IfSome result (AreArgumentsOf (name.now ∷ argument.now ∷ [])) }
    ensures none { IfNone result (AreNoArguments (name.now ∷ argument.now ∷ [])) }
{
    match name {
        "verify" => Some(Command::Verify(argument)),
        "show" => Some(Command::Show(argument)),
        "inspect" => Some(Command::Inspect(argument)),
        "read" => Some(Command::Read(argument)),
        _ => None,
    }
}

/// The command of this name, except `expand`, with two arguments.
fn of_two_arguments<'a>(name: &str, first: &'a str, second: &'a str) -> Option<Command<'a>>
    requires { name.now ≢ codes "expand" }
    ensures some { IfSome result (AreArgumentsOf (name.now ∷ first.now ∷ second.now ∷ [])) }
    ensures none { IfNone result (AreNoArguments (name.now ∷ first.now ∷ second.now ∷ [])) }
{
    match name {
        "link" => Some(Command::Link(first, second)),
        "compile" => Some(Command::Compile(first, second)),
        "upgrade" => Some(Command::Upgrade(first, second)),
        "run" => Some(Command::Run(first, second)),
        "resolve" => Some(Command::Resolve(first, second)),
        "find" => Some(Command::Find(first, second)),
        "lint" => Some(Command::Lint(first, second)),
        _ => None,
    }
}

/// The command of this name, except `expand`, with three arguments.
fn of_three_arguments<'a>(
    name: &str,
    first: &'a str,
    second: &'a str,
    third: &'a str,
) -> Option<Command<'a>>
    requires { name.now ≢ codes "expand" }
    ensures some { IfSome result (AreArgumentsOf (name.now ∷ first.now ∷ second.now ∷ third.now ∷ [])) }
    ensures none { IfNone result (AreNoArguments (name.now ∷ first.now ∷ second.now ∷ third.now ∷ [])) }
{
    match name {
        "serve" => Some(Command::Serve(Service::parse(first, second, third)?)),
        "explain" => Some(Command::Explain(first, second, third)),
        _ => None,
    }
}
