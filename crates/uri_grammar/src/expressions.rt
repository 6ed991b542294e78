//! Expressions (RFC 6570, section 2.2): an operator and a list of variables in braces.

ghost use Rattle.std.specs.Prelude.{◌≡◌, ◌+◌, ◌<◌, ◌≤◌, ℕ, List, [], ◌∷◌, ◌++◌, IfOk, IfErr, length, take};
ghost use Rattle.uri_grammar.specs.Characters.{comma};
ghost use Rattle.uri_grammar.specs.Private.Lengths.{literal_item_len};
ghost use Rattle.uri_grammar.specs.Specs.{Lacks, SpellsSpecs};
ghost use Rattle.uri_grammar.specs.Expressions.{operator_text, begins_with_reserved, IsBody};
ghost use Rattle.uri_grammar.specs.Faults.{IsListFault, IsBodyFault, IsPartFault};
ghost use Rattle.uri_grammar.specs.Private.Reading.{begins_with_brace, operator_of, IsExpression, IsFault};

use crate::characters::place_of;
use crate::error::{TemplateError, TemplateErrorKind};
use crate::parts::{Op, Part, Spec, Specs};
use crate::template::MAX_BYTES;
use crate::variables::spec;
use std::alloc::Global;

/// How many characters come before the first comma, or before the end.
fn piece_len(rest: &[char]) -> usize
    ensures within { result ≤ length rest.now }
    ensures lacks { Lacks comma (take result rest.now) }
    ensures cut { (after : List ℕ) × (rest.now ++ comma ∷ [] ≡ take result rest.now ++ comma ∷ after) }
{
    match place_of(rest, ',') {
        Some(at) => at,
        None => rest.len(),
    }
}

/// How many commas there are.
fn comma_count(list: &[char]) -> usize
    ensures { result ≤ length list.now }
{
    list.iter().filter(|c| **c == ',').count()
}

/// A list of variables with commas between them.
fn variable_list(alloc: Global, list: &[char]) -> Result<Vec<Spec>, TemplateError>
    requires { length list.now ≤ MAX_BYTES }
    ensures ok { IfOk result (λ specs. SpellsSpecs (list.now ++ comma ∷ []) specs.items) }
    ensures err { IfErr result (λ e. IsFault e (IsListFault list.now)) }
    ensures near { IfErr result (λ e. e.at ≤ 16384) }
{
    let mut specs = Vec::with_capacity(alloc, comma_count(list) + 1)?;
    let mut done = 0;
    while done <= list.len() {
        let rest = list.split_at(done).1;
        let len = piece_len(rest);
        match spec(alloc, rest.split_at(len).0) {
            Ok(spec) => specs.push(spec)?,
            Err(e) => return Err(e.after(done)),
        }
        done += len + 1;
    }
    Ok(specs)
}

fn operator(body: &[char]) -> Op
    ensures { result ≡ operator_of body.now }
{
    match body {
        ['+', ..] => Op::Plus,
        ['#', ..] => Op::Hash,
        ['.', ..] => Op::Dot,
        ['/', ..] => Op::Slash,
        [';', ..] => Op::Semicolon,
        ['?', ..] => Op::Question,
        ['&', ..] => Op::Ampersand,
        _ => Op::Simple,
    }
}

fn operator_len(op: Op) -> usize
    ensures { result ≡ length (operator_text op) }
{
    match op {
        Op::Simple => 0,
        _ => 1,
    }
}

fn begins_with_reserved(body: &[char]) -> bool
    ensures { result ≡ begins_with_reserved body.now }
{
    matches!(body, ['=' | ',' | '!' | '@' | '|', ..])
}

/// What is written between the braces.
fn body(alloc: Global, text: &[char]) -> Result<(Op, Vec<Spec>), TemplateError>
    requires { length text.now ≤ MAX_BYTES }
    ensures ok { IfOk result (λ body. IsBody text.now body.0 body.1.items) }
    ensures err { IfErr result (λ e. IsFault e (IsBodyFault text.now)) }
    ensures near { IfErr result (λ e. e.at ≤ 16385) }
{
    if begins_with_reserved(text) {
        return Err(TemplateError::new(TemplateErrorKind::ReservedOperator, 0));
    }
    let op = operator(text);
    let skipped = operator_len(op);
    match variable_list(alloc, text.split_at(skipped).1) {
        Ok(specs) => Ok((op, specs)),
        Err(e) => Err(e.after(skipped)),
    }
}

fn begins_with_brace(text: &[char]) -> bool
    ensures { result ≡ begins_with_brace text.now }
{
    matches!(text, ['{', ..])
}

/// The expression at the beginning, and how many characters it has.
pub(crate) fn expression(alloc: Global, text: &[char]) -> Result<(Part, usize), TemplateError>
    requires short { length text.now ≤ MAX_BYTES }
    requires some { 0 < length text.now }
    requires no_literal { literal_item_len text.now ≡ 0 }
    ensures within { IfOk result (λ found. (0 < found.1) × (found.1 ≤ length text.now)) }
    ensures ok { IfOk result (λ found. IsExpression (take found.1 text.now) found.0) }
    ensures err { IfErr result (λ e. IsFault e (IsPartFault text.now)) }
    ensures near { IfErr result (λ e. e.at ≤ 16386) }
{
    if !begins_with_brace(text) {
        return Err(TemplateError::new(TemplateErrorKind::BadLiteral, 0));
    }
    let inner = text.split_at(1).1;
    let Some(end) = place_of(inner, '}') else {
        return Err(TemplateError::new(TemplateErrorKind::Unclosed, 0));
    };
    if end == 0 {
        return Err(TemplateError::new(TemplateErrorKind::EmptyExpression, 0));
    }
    match body(alloc, inner.split_at(end).0) {
        Ok((op, specs)) => {
            let specs = Specs::new(specs);
            Ok((Part::Expression { op, specs }, end + 2))
        }
        Err(e) => Err(e.after(1)),
    }
}
