// The script that a list of tokens is.
ghost use Rattle.std.specs.Prelude.{IfErr, IfOk, List};
ghost use Rattle.jo_parse_grammar.specs.inner.ReadStatements.{whole_script};
ghost use Rattle.jo_parse_grammar.specs.Refusals.{Fault, IsAccepted, IsRefused};
ghost use Rattle.jo_parse_grammar.specs.Statements.{IsScript};
ghost use Rattle.jo_parse_grammar.specs.declared.terminal.Terminal.{Terminal};
ghost use Rattle.jo_lex.specs.Faults.{Refuses};
ghost use Rattle.jo_parse_grammar.specs.TokenRefusals.{Gives, IsFault, refusal_of};
ghost use Rattle.jo_parse_script.specs.inner.Answered.{Answered};
ghost use Rattle.jo_parse_grammar.specs.Terminals.{terminals_of};
ghost use Rattle.jo_parse_tree.specs.ScriptViews.{script_tree};
ghost use Rattle.jo_parse_tree.specs.Trees.{Items};

use crate::cursor::Cursor;
use crate::parser::Parser;
use crate::refusal::stopped;
use crate::terminals::terminals;
use jo_lex::{ParseFault, Token};
use jo_parse_grammar::Terminal;
use jo_parse_tree::Script;
use jo_value::{MOST_OPEN, Texts};
use std::alloc::Global;

// What is answered for the terminals of the tokens.
fn read(alloc: Global, tokens: &[Token], terminals: &[Terminal]) -> Result<Script, ParseFault>
    ensures { Answered script_tree tokens.now terminals.now (whole_script MOST_OPEN terminals.now) result }
{
    let mut parser = Parser {
        alloc,
        tokens: Cursor::new(terminals),
    };
    match parser.script(MOST_OPEN) {
        Ok(script) => Ok(script),
        Err(stop) => Err(stopped(stop, tokens, terminals, parser.tokens.left())),
    }
}

/// The only script that the tokens parse as, or the first fault and the place of its token.
pub fn parse_script(alloc: Global, tokens: &[Token], texts: &Texts) -> Result<Script, ParseFault>
    ensures ok { IfOk result (λ script.
        IsAccepted IsScript MOST_OPEN (terminals_of texts.now tokens.now) (script_tree script)) }
    ensures refused { IfErr result (IsFault IsScript tokens.now (terminals_of texts.now tokens.now)) }
    ensures complete { (s : Items) → IsAccepted IsScript MOST_OPEN (terminals_of texts.now tokens.now) s
        → Gives script_tree s result }
    ensures first { (fault : Fault) (rest : List Terminal)
        → IsRefused IsScript MOST_OPEN fault (terminals_of texts.now tokens.now) rest
        → Refuses (refusal_of tokens.now (terminals_of texts.now tokens.now) fault rest) result }
{
    let terminals = terminals(alloc, tokens, texts)?;
    read(alloc, tokens, &terminals)
}
