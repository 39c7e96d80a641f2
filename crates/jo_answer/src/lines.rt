// The lines that say why an input is not run.
ghost use Rattle.std.specs.Prelude.{◌≡◌, IfOk};
ghost use Rattle.jo_answer.specs.Lines as spec;

use jo_parse::{Refusal, RefusalKind};
use std::alloc::{AllocError, Global};

/// The line for an input of too many bytes.
pub(crate) const SIZE_LINE: &[u8] = b"refused: input over 1048576 bytes\n";

fn code(kind: RefusalKind) -> u8
    ensures { result ≡ spec.kind_code kind }
{
    match kind {
        RefusalKind::NotUtf8 => 1,
        RefusalKind::BadToken => 2,
        RefusalKind::Unexpected => 3,
        RefusalKind::Undeclared => 4,
        RefusalKind::Twice => 5,
        RefusalKind::TooManyScripts => 6,
        RefusalKind::NestedTooDeep => 7,
        RefusalKind::NumberTooLarge => 8,
        RefusalKind::TooManyTexts => 9,
        RefusalKind::NoScript => 10,
    }
}

fn name(kind: RefusalKind) -> &'static str
    ensures { result.now ≡ spec.kind_name kind }
{
    match kind {
        RefusalKind::NotUtf8 => "NotUtf8",
        RefusalKind::BadToken => "BadToken",
        RefusalKind::Unexpected => "Unexpected",
        RefusalKind::Undeclared => "Undeclared",
        RefusalKind::Twice => "Twice",
        RefusalKind::TooManyScripts => "TooManyScripts",
        RefusalKind::NestedTooDeep => "NestedTooDeep",
        RefusalKind::NumberTooLarge => "NumberTooLarge",
        RefusalKind::TooManyTexts => "TooManyTexts",
        RefusalKind::NoScript => "NoScript",
    }
}

/// The line of a refusal: its code, its name and its place.
pub(crate) fn refusal_line(alloc: Global, refusal: Refusal) -> Result<Vec<u8>, AllocError>
    ensures { IfOk result (λ line. line.items ≡ spec.refusal_line refusal) }
{
    let code = code(refusal.kind);
    let name = name(refusal.kind);
    let line = format!(in alloc; "refused {code} {name} at {}\n", refusal.place)?;
    Ok(line.into_bytes())
}
