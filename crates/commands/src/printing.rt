//! Printing.

ghost use Rattle.std.specs.Prelude.{◌≡◌, Ok};
ghost use Rattle.answers.specs.Results.{report_result, text_result};
ghost use Rattle.commands.specs.Output.{Prints, Reports, end_of, output_of};

use crate::fault::{Answer, Fault};
use files::write_text;
use printed_text::Findings;
use std::io::Write;

/// Prints the text, if there is one.
pub(crate) fn print<'a, O: Write>(output: &mut O, text: Answer<'a>) -> Result<(), Fault<'a>>
    ensures { Prints (λ printed. printed ≡ text_result text.entry) (output_of O.contents output.old output.new)
        (end_of result) }
{
    match text {
        Ok(text) => print_text(output, &text),
        Err(fault) => Err(fault),
    }
}

/// Prints the text.
pub(crate) fn print_text<'a, O: Write>(output: &mut O, text: &str) -> Result<(), Fault<'a>>
    ensures { Prints (λ printed. printed ≡ Ok text.now) (output_of O.contents output.old output.new) (end_of result) }
{
    match write_text(output, text) {
        Ok(()) => Ok(()),
        Err(_) => Err(Fault::Device("-")),
    }
}

/// Prints the findings, if there are any; `Warning` if one of them is a warning.
pub(crate) fn print_findings<'a, O: Write>(
    output: &mut O,
    findings: Result<Findings, Fault<'a>>,
) -> Result<(), Fault<'a>>
    ensures { Reports (λ found. found ≡ report_result findings.entry) (output_of O.contents output.old output.new)
        (end_of result) }
{
    match findings {
        Ok(findings) => match write_text(output, &findings.text) {
            Ok(()) if findings.warned => Err(Fault::Warning),
            Ok(()) => Ok(()),
            Err(_) => Err(Fault::Device("-")),
        },
        Err(fault) => Err(fault),
    }
}
