// From the sections of a set to their tokens.
ghost use Rattle.std.specs.Prelude.{◌≡◌, [], false, IfErr, IfOk};
ghost use Rattle.jo_value.specs.declared.limits.TheConstants.{MOST_INPUT};
ghost use Rattle.jo_parse_grammar.specs.Cuts.{AreWithin};
ghost use Rattle.jo_parse.specs.inner.CutScripts.{sections_in};
ghost use Rattle.jo_parse_grammar.specs.Sets.{AreRead, is_nothing};
ghost use Rattle.jo_parse.specs.inner.Stages.{IsLexFault, IsTokensFault, lists_of};

use crate::section::Section;
use jo_lex::{ParseFault, Refusal, RefusalKind, Token, tokens};
use jo_value::Texts;
use std::alloc::{AllocError, Global};

/// The tokens of each script, and the table of their texts.
#[derive(Drop)]
pub(crate) struct Lexed {
    pub(crate) lists: Vec<Vec<Token>>,
    pub(crate) texts: Texts,
}

// Reads the scripts one after another into one table.
fn token_lists(
    alloc: Global,
    sections: &[Section<'_>],
    texts: &mut Texts,
) -> Result<Vec<Vec<Token>>, ParseFault>
    requires { AreWithin MOST_INPUT (sections_in sections.now) }
    ensures ok { IfOk result (λ lists.
        AreRead texts.old (sections_in sections.now) (lists_of lists.items) texts.new) }
    ensures refused { IfErr result (IsLexFault texts.old (sections_in sections.now)) }
{
    let mut lists = Vec::new(alloc);
    for section in sections {
        let found = tokens(alloc, section.input, section.start, texts)?;
        lists.push(found).map_err(AllocError::from)?;
    }
    Ok(lists)
}

// Whether there is one script, and it has no token but its end.
fn is_nothing(lists: &[Vec<Token>]) -> bool
    ensures { result ≡ is_nothing (lists_of lists.now) }
{
    lists.len() == 1 && lists[0].len() == 1
}

/// The tokens of the scripts, which are not nothing.
pub(crate) fn lex(alloc: Global, sections: &[Section<'_>]) -> Result<Lexed, ParseFault>
    requires { AreWithin MOST_INPUT (sections_in sections.now) }
    ensures ok { IfOk result (λ lexed.
        AreRead [] (sections_in sections.now) (lists_of lexed.lists.items) lexed.texts) }
    ensures something { IfOk result (λ lexed. is_nothing (lists_of lexed.lists.items) ≡ false) }
    ensures refused { IfErr result (IsTokensFault (sections_in sections.now)) }
{
    let mut texts = Texts::new(alloc);
    let lists = token_lists(alloc, sections, &mut texts)?;
    if is_nothing(lists.as_slice()) {
        return Err(ParseFault::Refused(Refusal {
            kind: RefusalKind::NoScript,
            place: 0,
        }));
    }
    Ok(Lexed { lists, texts })
}
