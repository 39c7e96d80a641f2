// Blocks and scripts.
ghost use Rattle.std.specs.Prelude.{length};
ghost use Rattle.jo_parse_grammar.specs.inner.ReadStatements as spec;
ghost use Rattle.jo_parse_grammar.specs.inner.ReadStatements.{read_statement};
ghost use Rattle.jo_parse_script.specs.inner.Outcomes.{Reads};
ghost use Rattle.jo_parse_script.specs.inner.ScriptOutcomes.{ReadsAll, item_view};
ghost use Rattle.jo_parse_tree.specs.ScriptViews.{items_list, script_tree, statement_tree};
ghost use Rattle.jo_parse_tree.specs.Trees.{no_items};

use crate::parser::Parser;
use crate::stop::Stop;
use jo_lex::Punct;
use jo_parse_tree::{Block, Item, Keyword, Script, Statement};
use sqlite_items::Items;

impl<'a> Parser<'a> {
    #[cycle(statement)]
    #[tactic(auto, using(crate::proofs::ScriptRules::script_reading), unfolding(jo_parse_grammar::specs::inner::ReadStatements::item_at))]
    fn item(&mut self, room: u8, loops: bool) -> Result<Item, Stop>
        ensures { Reads item_view (spec.item_at room (read_statement room loops) self.old.tokens) result self.new.tokens }
    {
        if self.tokens.sees_keyword(Keyword::Let) {
            self.tokens.advance();
            return Ok(Item::Let(self.declaration(room, true)?));
        }
        Ok(Item::Statement(self.statement(room, loops)?))
    }

    /// The items of a block, and its closing brace.
    #[cycle(statement)]
    #[tactic(auto, using(crate::proofs::ScriptRules::script_reading), unfolding(jo_parse_grammar::specs::inner::ReadStatements::block_from))]
    fn items(&mut self, room: u8, loops: bool) -> Result<Items<Item>, Stop>
        ensures { Reads items_list (spec.block_from room (read_statement room loops) (length self.old.tokens) no_items self.old.tokens) result self.new.tokens }
    {
        let mut items = Items::new(self.alloc);
        for _turn in 0..self.tokens.left() {
            if self.tokens.sees(Punct::CloseBrace) {
                self.tokens.advance();
                return Ok(items);
            }
            items.push(self.item(room, loops)?)?;
        }
        Err(Stop::Unexpected)
    }

    /// A block after its brace.
    #[cycle(statement)]
    #[tactic(auto, using(crate::proofs::ScriptRules::script_reading), unfolding(jo_parse_grammar::specs::inner::ReadStatements::block_after))]
    pub(crate) fn block(&mut self, room: u8, loops: bool) -> Result<Statement, Stop>
        ensures { Reads statement_tree (spec.block_after room (read_statement room loops) self.old.tokens) result self.new.tokens }
    {
        let items = self.items(room, loops)?;
        Ok(Statement::Block(Block { items }))
    }

    /// All that is left, as a script.
    #[tactic(auto, using(crate::proofs::ScriptRules::script_reading, crate::proofs::ScriptRules::script_turns), unfolding(jo_parse_grammar::specs::inner::ReadStatements::whole_script))]
    pub(crate) fn script(&mut self, limit: u8) -> Result<Script, Stop>
        ensures { ReadsAll script_tree (spec.whole_script limit self.old.tokens) result self.new.tokens }
    {
        let mut items = Items::new(self.alloc);
        for _turn in 0..self.tokens.left() {
            if self.tokens.left() == 0 {
                return Ok(Script { items });
            }
            items.push(self.item(limit, false)?)?;
        }
        if self.tokens.left() > 0 {
            return Err(Stop::Unexpected);
        }
        Ok(Script { items })
    }
}
