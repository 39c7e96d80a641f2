// The sections of an input.
ghost use Rattle.std.specs.Prelude.{◌≡◌, ◌+◌, ◌<◌, ◌≤◌, [], ◌∷◌, ◌++◌, length, take, drop, IfErr, IfOk, OnOk};
ghost use Rattle.std.specs.Str.{IsCharBoundary};
ghost use Rattle.jo_value.specs.declared.limits.TheConstants.{MOST_INPUT, MOST_SCRIPTS};
ghost use Rattle.jo_lex.specs.Characters.{EndsWith};
ghost use Rattle.jo_parse_grammar.specs.Cuts.{AreWithin, is_separator, lines_of, sections_of};
ghost use Rattle.jo_parse.specs.inner.CutScripts.{IsCutFault, one_too_many, sections_in, section_of};

use jo_lex::{ParseFault, Refusal, RefusalKind, front};
use jo_value::MOST_SCRIPTS;
use std::alloc::{AllocError, Global};

/// A script of a set as bytes, and how many stand before it.
#[derive(Clone, Copy)]
pub(crate) struct Section<'a> {
    pub(crate) start: u32,
    pub(crate) input: &'a str,
}

// Where the first line of an input ends, after its line feed. Most lines are short, so it goes byte by byte.
fn line_end(input: &str) -> usize
    requires { 0 < length input.now }
    ensures boundary { IsCharBoundary input.now result }
    ensures some { 0 < result }
    ensures lines { lines_of input.now ≡ take result input.now ∷ lines_of (drop result input.now) }
{
    let bytes = input.as_bytes();
    let mut end = 0;
    while end < bytes.len() {
        if bytes[end] == b'\n' {
            return end + 1;
        }
        end += 1;
    }
    end
}

// The first line of an input, with its line feed, and what follows it.
fn first_line(input: &str) -> (&str, &str)
    requires { 0 < length input.now }
    ensures lines { lines_of input.now ≡ result.0.now ∷ lines_of result.1.now }
    ensures parts { input.now ≡ result.0.now ++ result.1.now }
    ensures shorter { length result.1.now < length input.now }
{
    input.split_at(line_end(input))
}

fn is_separator(line: &str) -> bool
    ensures { result ≡ is_separator line.now }
{
    line == "%%\n" || line == "%%\r\n" || line == "%%" || line == "%%\r"
}

// The section that goes from there to before the end, in an input that both end.
fn script<'a>(input: &str, from: &'a str, end: &str) -> Section<'a>
    requires limit { length input.now ≤ MOST_INPUT }
    requires from { EndsWith input.now from.now }
    requires end { EndsWith from.now end.now }
    ensures start { result.start + length from.now ≡ length input.now }
    ensures input { from.now ≡ result.input.now ++ end.now }
{
    Section {
        start: (input.len() - from.len()) as u32,
        input: front(from, end),
    }
}

// Adds a section to those before it.
fn add<'a>(parts: &mut Vec<Section<'a>>, part: Section<'a>) -> Result<(), AllocError>
    ensures ok { OnOk result (sections_in parts.new.items ≡ sections_in parts.old.items ++ section_of part.entry ∷ []) }
    ensures len { OnOk result (length parts.new.items ≡ length parts.old.items + 1) }
{
    parts.push(part)?;
    Ok(())
}

// The refusal at the separator that ends this section.
fn too_many(last: Section<'_>) -> ParseFault
    requires { last.start + length last.input.now ≤ MOST_INPUT }
    ensures { result ≡ one_too_many (section_of last.entry) }
{
    ParseFault::Refused(Refusal {
        kind: RefusalKind::TooManyScripts,
        place: last.start + last.input.len() as u32,
    })
}

/// The sections of an input, which lines of `%%` separate; or the first separator that would begin one too many.
pub(crate) fn cut<'a>(alloc: Global, input: &'a str) -> Result<Vec<Section<'a>>, ParseFault>
    requires { length input.now ≤ MOST_INPUT }
    ensures ok { IfOk result (λ parts. sections_in parts.items ≡ sections_of input.now) }
    ensures within { IfOk result (λ parts. AreWithin (length input.now) (sections_in parts.items)) }
    ensures few { IfOk result (λ parts. length parts.items ≤ MOST_SCRIPTS) }
    ensures refused { IfErr result (IsCutFault input.now) }
{
    let mut parts = Vec::new(alloc);
    let mut from = input;
    let mut rest = input;
    while !rest.is_empty() {
        let (line, after) = first_line(rest);
        if is_separator(line) {
            let part = script(input, from, rest);
            if parts.len() + 1 == MOST_SCRIPTS {
                return Err(too_many(part));
            }
            add(&mut parts, part)?;
            from = after;
        }
        rest = after;
    }
    add(&mut parts, script(input, from, rest))?;
    Ok(parts)
}
