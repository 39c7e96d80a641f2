// From bytes to characters.
ghost use Rattle.std.specs.Prelude.{◌≡◌, ◌≤◌, length, IfErr, IfOk, IsUtf8};
ghost use Rattle.jo_value.specs.declared.limits.TheConstants.{MOST_INPUT};
ghost use Rattle.jo_parse.specs.Parsed.{IsSetFault};

use jo_lex::{ParseFault, Refusal, RefusalKind};

/// The bytes as characters, or the refusal at the first byte that belongs to no whole one.
pub(crate) fn decode(bytes: &[u8]) -> Result<&str, ParseFault>
    requires { length bytes.now ≤ MOST_INPUT }
    ensures same { IfOk result (λ input. input.now ≡ bytes.now) }
    ensures ok { IfOk result (λ _. IsUtf8 bytes.now) }
    ensures refused { IfErr result (IsSetFault bytes.now) }
{
    match str::from_utf8(bytes) {
        Ok(input) => Ok(input),
        Err(error) => Err(ParseFault::Refused(Refusal {
            kind: RefusalKind::NotUtf8,
            place: error.valid_up_to() as u32,
        })),
    }
}
