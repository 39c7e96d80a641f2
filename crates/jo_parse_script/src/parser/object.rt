// Object literals.
ghost use Rattle.std.specs.Prelude.{length};
ghost use Rattle.jo_parse_grammar.specs.inner.Read as spec;
ghost use Rattle.jo_parse_script.specs.inner.Outcomes.{Reads, prop_tree};
ghost use Rattle.jo_parse_tree.specs.Views.{object_tree, props_list};

use crate::parser::Parser;
use crate::stop::Stop;
use jo_lex::Punct;
use jo_parse_tree::{Object, Prop};
use sqlite_items::Items;

impl<'a> Parser<'a> {
    /// An object after its brace.
    #[cycle(parser)]
    #[tactic(auto, using(crate::proofs::Rules::reading), unfolding(jo_parse_grammar::specs::inner::Read::object_after))]
    pub(super) fn object(&mut self, inner: u8) -> Result<Object, Stop>
        ensures { Reads object_tree (spec.object_after (spec.read inner) self.old.tokens) result self.new.tokens }
    {
        let mut props = Items::new(self.alloc);
        if self.tokens.sees(Punct::CloseBrace) {
            self.tokens.advance();
            return Ok(Object {
                props,
                has_comma: false,
            });
        }
        props.push(self.property(inner)?)?;
        self.properties(inner, props)
    }

    /// The rest of an object after a property.
    #[cycle(parser)]
    #[tactic(auto, using(crate::proofs::Rules::reading), unfolding(jo_parse_grammar::specs::inner::Read::props_from))]
    fn properties(&mut self, inner: u8, mut props: Items<Prop>) -> Result<Object, Stop>
        ensures { Reads object_tree (spec.props_from (spec.read inner) (length self.old.tokens) (props_list props) self.old.tokens) result self.new.tokens }
    {
        for _turn in 0..self.tokens.left() {
            if self.tokens.sees(Punct::CloseBrace) {
                self.tokens.advance();
                return Ok(Object {
                    props,
                    has_comma: false,
                });
            }
            self.tokens.expect(Punct::Comma)?;
            if self.tokens.sees(Punct::CloseBrace) {
                self.tokens.advance();
                return Ok(Object {
                    props,
                    has_comma: true,
                });
            }
            props.push(self.property(inner)?)?;
        }
        Err(Stop::Unexpected)
    }

    #[cycle(parser)]
    #[tactic(auto, using(crate::proofs::Rules::reading), unfolding(jo_parse_grammar::specs::inner::Read::property))]
    fn property(&mut self, inner: u8) -> Result<Prop, Stop>
        ensures { Reads prop_tree (spec.property (spec.read inner) self.old.tokens) result self.new.tokens }
    {
        let key = self.tokens.key()?;
        self.tokens.expect(Punct::Colon)?;
        let value = self.nested(inner, true)?;
        Ok(Prop { key, value })
    }
}
