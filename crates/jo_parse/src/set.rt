// A set of scripts that was read.

use jo_parse_tree::Script;
use jo_value::Texts;
use std::marker::Model;

/// Scripts, and the table of their texts.
///
/// Contracts see the scripts and the table. There are 1 to `MOST_SCRIPTS` scripts, and each is sound for the table.
#[derive(Drop)]
pub struct ScriptSet {
    pub(crate) scripts: Vec<Script>,
    pub(crate) texts: Texts,
}

impl Model for ScriptSet {
    ghost use Rattle.std.specs.Prelude.{◌≤◌, length, map};
    ghost use Rattle.jo_value.specs.declared.limits.TheConstants.{MOST_SCRIPTS};
    ghost use Rattle.jo_parse_tree.specs.ScriptViews.{script_tree};
    ghost use Rattle.jo_parse_grammar.specs.Soundness.{AreSound};
    ghost use Rattle.std.specs.Coded.{codes};
    ghost use Rattle.jo_parse_tree.specs.contracts.script.Item as item;
    ghost use Rattle.jo_parse.specs.Parsed.{Parsed};

    ghost Value = { Parsed };

    ghost coded = { Prim.hlevel (codes, item.the_row.coded) };

    ghost view = { λ s. (s.scripts.items, s.texts) };

    ghost invariant = { λ s. (1 ≤ length s.scripts.items) × (length s.scripts.items ≤ MOST_SCRIPTS)
        × AreSound s.texts (map script_tree s.scripts.items) };
}

impl ScriptSet {
    ghost use Rattle.std.specs.Prelude.{◌≡◌, ◌<◌, ◌≤◌, length, slice_get, Some};
    ghost use Rattle.jo_value.specs.declared.limits.TheConstants.{MOST_SCRIPTS};
    ghost use Rattle.jo_parse_grammar.specs.Sound.{IsSound};
    ghost use Rattle.jo_parse.specs.Parsed.{trees_of};
    ghost use Rattle.jo_parse_tree.specs.ScriptViews.{script_tree};

    /// How many scripts there are.
    pub fn len(&self) -> u8
        ensures len { result ≡ length self.now.0 }
        ensures bounds { (1 ≤ result) × (result ≤ MOST_SCRIPTS) }
    {
        self.scripts.len() as u8
    }

    /// The script at a place, from 0.
    pub fn script(&self, at: u8) -> &Script
        requires { at < length self.now.0 }
        ensures tree { slice_get (trees_of self.now) at ≡ Some (script_tree result.now) }
        ensures sound { IsSound self.now.1 (script_tree result.now) }
    {
        &self.scripts[usize::from(at)]
    }

    /// The table of the texts of all the scripts.
    pub fn texts(&self) -> &Texts
        ensures { result.now ≡ self.now.1 }
    {
        &self.texts
    }
}
