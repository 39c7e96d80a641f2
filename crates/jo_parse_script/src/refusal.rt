// From a stop of the parser to a refusal with its place.
ghost use Rattle.std.specs.Prelude.{◌≡◌, ◌-◌, length};
ghost use Rattle.jo_lex.specs.declared.refusal.ParseFault.TheVariants as fault;
ghost use Rattle.jo_parse_grammar.specs.TokenRefusals.{start_at};
ghost use Rattle.jo_parse_script.specs.inner.Answered.{fault_at};

use crate::stop::Stop;
use jo_lex::{ParseFault, Refusal, RefusalKind, Token};
use jo_parse_grammar::Terminal;

fn start_at(tokens: &[Token], index: usize) -> u32
    ensures { result ≡ start_at tokens.now index }
{
    match tokens.get(index) {
        Some(token) => token.start,
        None => 0,
    }
}

// The refusal at the token from which `left` terminals are left. There are never more left than
// there were.
fn refused(kind: RefusalKind, tokens: &[Token], terminals: &[Terminal], left: usize) -> ParseFault
    ensures { result ≡ fault.Refused record { kind = kind; place = start_at tokens.now (length terminals.now - left) } }
{
    let place = start_at(tokens, terminals.len().saturating_sub(left));
    ParseFault::Refused(Refusal { kind, place })
}

/// The fault that a stop stands for, where `left` terminals are left.
pub(crate) fn stopped(
    stop: Stop,
    tokens: &[Token],
    terminals: &[Terminal],
    left: usize,
) -> ParseFault
    ensures { result ≡ fault_at tokens.now terminals.now left stop }
{
    match stop {
        Stop::Memory => ParseFault::Memory,
        Stop::Unexpected => refused(RefusalKind::Unexpected, tokens, terminals, left),
        Stop::NestedTooDeep => refused(RefusalKind::NestedTooDeep, tokens, terminals, left),
    }
}
