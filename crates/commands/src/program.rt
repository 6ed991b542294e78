//! The program without its runtime: arguments in, lines and an exit status out.

ghost use Rattle.std.specs.Prelude.{◌≡◌, ◌≤◌, ◌⊎◌, Option, IfErr, IfOk, map, string_bytes};
ghost use Rattle.text_model.specs.Texts.{texts_of};
ghost use Rattle.commands.specs.Faults.{status_of};
ghost use Rattle.commands.specs.Output.{end_of, output_of};
ghost use Rattle.commands.specs.Program.{EndsWith, HasEnded, Runs, status_of_end};
ghost use Rattle.commands.specs.declared.fault.Fault.{Fault};

use crate::arguments::{Command, parse};
use crate::code::{run, show, upgrade, verify};
use crate::fault::Fault;
use crate::help::{HELP, VERSION};
use crate::menus::resolve;
use crate::printing::{print, print_findings, print_text};
use crate::process_arguments::argument_texts;
use crate::rules::{compile, expand, link};
use crate::serving::serve;
use crate::source::{find, read};
use crate::targets::{explain, inspect, lint};
use crate::world::{System, World};
use answers::{NO_LINK, Refusal};
use files::Files;
use http_streams::Ports;
use kbart_rows::KeySource;
use std::io::Write;

/// Runs the command that the arguments name, prints its result on `output`, or one line with its error on `errors`, and
/// returns the exit status: 0 done, 1 no link or an empty menu (nothing is printed) or a warning (all is printed),
/// 2 unknown command or wrong arguments, 3 an argument or a file is rejected, 4 memory or a device. `serve` prints on
/// `errors` how its connections ended; `noted` is the state of `errors` before the line with the error.
pub fn command<F: Files, K: KeySource, P: Ports, O: Write, E: Write>(
    rt: &mut System<F, K, P>,
    arguments: &[&str],
    output: &mut O,
    errors: &mut E,
) -> u8
    ensures ends { (end : Option Fault) × (noted : E) × (result ≡ status_of_end end)
        × EndsWith ⟦<System<F, K, P> as World>⟧.told rt.old rt.new (output_of O.contents output.old output.new)
        (output_of E.contents errors.old noted) (texts_of arguments.now) end
        × ((result ≡ 0) ⊎ (result ≡ 1) → errors.new ≡ noted) }
{
    match dispatch(rt, arguments, output, errors) {
        Ok(()) => 0,
        Err(fault) => report(fault, errors),
    }
}

/// Runs the command that the arguments of the process name, as [`command`] does, if they could be read, and returns the
/// exit status.
pub fn carry_out<F: Files, K: KeySource, P: Ports, O: Write, E: Write>(
    rt: &mut System<F, K, P>,
    arguments: Result<Vec<String>, Fault<'static>>,
    output: &mut O,
    errors: &mut E,
) -> u8
    ensures unread { IfErr arguments.entry (λ fault. (result ≡ status_of fault) × (rt.new ≡ rt.old)
        × (output.new ≡ output.old)) }
    ensures ends { IfOk arguments.entry (λ given. (end : Option Fault) × (result ≡ status_of_end end)
        × HasEnded ⟦<System<F, K, P> as World>⟧.told rt.old rt.new (output_of O.contents output.old output.new)
        (output_of E.contents errors.old) (map string_bytes given.items) end) }
{
    match arguments {
        Ok(arguments) => match argument_texts(rt.alloc, &arguments) {
            Ok(texts) => command(rt, &texts, output, errors),
            Err(_) => report(Fault::Refused(Refusal::Memory), errors),
        },
        Err(unread) => report(unread, errors),
    }
}

/// Prints the error on `errors`, except if there is no link or only a warning, and returns the exit status.
pub fn report<E: Write>(fault: Fault, errors: &mut E) -> u8
    ensures status { result ≡ status_of fault.entry }
    ensures failed { 1 ≤ result }
    ensures no_line { result ≡ 1 → errors.new ≡ errors.old }
{
    let status = fault.status();
    if status != NO_LINK {
        let _ = writeln!(errors, "openlink: {fault}");
    }
    status
}

/// Runs the command that the arguments name, if they name one.
fn dispatch<'a, F: Files, K: KeySource, P: Ports, O: Write, E: Write>(
    rt: &mut System<F, K, P>,
    arguments: &'a [&'a str],
    output: &mut O,
    errors: &mut E,
) -> Result<(), Fault<'a>>
    ensures { EndsWith ⟦<System<F, K, P> as World>⟧.told rt.old rt.new (output_of O.contents output.old output.new)
        (output_of E.contents errors.old errors.new) (texts_of arguments.now) (end_of result) }
{
    match parse(arguments) {
        Some(command) => run_command(rt, command, output, errors),
        None => Err(Fault::Usage),
    }
}

/// Runs the command, and prints its result on `output`, and what `serve` says at its end on `errors`.
fn run_command<'a, F: Files, K: KeySource, P: Ports, O: Write, E: Write>(
    rt: &mut System<F, K, P>,
    command: Command<'a>,
    output: &mut O,
    errors: &mut E,
) -> Result<(), Fault<'a>>
    ensures { Runs ⟦<System<F, K, P> as World>⟧.told rt.old rt.new (output_of O.contents output.old output.new)
        (output_of E.contents errors.old errors.new) command.entry (end_of result) }
{
    let alloc = rt.alloc;
    let files = &mut rt.files;
    let keys = &mut rt.keys;
    match command {
        Command::Expand(arguments) => print(output, expand(alloc, arguments)),
        Command::Link(rules, query) => print(output, link(alloc, files, rules, query)),
        Command::Compile(rules, code) => print(output, compile(alloc, files, rules, code)),
        Command::Verify(code) => print(output, verify(alloc, files, code)),
        Command::Show(code) => print(output, show(alloc, files, code)),
        Command::Upgrade(old, new) => print(output, upgrade(alloc, files, old, new)),
        Command::Run(code, query) => print(output, run(alloc, files, code, query)),
        Command::Resolve(path, query) => print(output, resolve(alloc, files, keys, path, query)),
        Command::Read(query) => print(output, read(alloc, query)),
        Command::Find(path, query) => print(output, find(alloc, files, keys, path, query)),
        Command::Inspect(table) => print_findings(output, inspect(alloc, files, keys, table)),
        Command::Lint(rules, table) => print_findings(
            output,
            lint(alloc, files, keys, rules, table),
        ),
        Command::Explain(rules, table, query) => explain(
            alloc, files, keys, rules, table, query, output,
        ),
        Command::Serve(service) => serve(rt, service, output, errors),
        Command::Help => print_text(output, HELP),
        Command::Version => print_text(output, VERSION),
    }
}
