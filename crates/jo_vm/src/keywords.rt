// The keywords as texts.
ghost use Rattle.std.specs.Prelude.{◌≡◌, ◌<◌, length, map};
ghost use Rattle.jo_value.specs.Texts.{id_in};
ghost use Rattle.jo_parse_tree.specs.Words.{keyword_text};
ghost use Rattle.jo_vm.specs.inner.Words.{place_of, word_id, ids_in};

use jo_parse_tree::{KEYWORDS, Keyword};
use jo_value::{TextId, Texts};
use std::marker::Model;

/// The ids of the texts of all keywords in a table, so that none is searched for while a script runs.
///
/// Contracts see the table, and it stands here for them alone.
#[derive(Drop)]
pub(crate) struct Words<'a> {
    texts: &'a Texts,
    ids: [TextId; 17],
}

impl<'a> Model for Words<'a> {
    ghost use Rattle.std.specs.Prelude.{◌≡◌, ℕ, List};
    ghost use Rattle.jo_vm.specs.inner.Words.{ids_in};

    ghost Value = { List (List ℕ) };

    ghost view = { λ words. words.texts.now };

    ghost invariant = { λ words. words.ids ≡ ids_in words.texts.now };
}

impl<'a> Words<'a> {
    /// The ids in a table.
    pub(crate) fn new(texts: &'a Texts) -> Words<'a>
        ensures { result ≡ texts.now }
    {
        let ids = ids_of(texts, &KEYWORDS);
        Words { texts, ids }
    }

    /// The id of a keyword. It is one that no text has, where the table lacks the keyword.
    pub(crate) fn text(&self, word: Keyword) -> TextId
        ensures { result.0 ≡ id_in self.now (keyword_text word) }
    {
        self.ids[place_of(word)]
    }
}

fn ids_of(texts: &Texts, words: &[Keyword]) -> [TextId; 17]
    requires { length words.now ≡ 17 }
    ensures { result ≡ map (word_id texts.now) words.now }
{
    let mut ids = [TextId(0); 17];
    for place in 0..17 {
        ids[place] = word_id(texts, words[place]);
    }
    ids
}

fn word_id(texts: &Texts, word: Keyword) -> TextId
    ensures { result ≡ word_id texts.now word }
{
    match texts.id_of(word.text()) {
        Some(id) => id,
        None => TextId(texts.len()),
    }
}

fn place_of(word: Keyword) -> usize
    ensures value { result ≡ place_of word }
    ensures within { result < 17 }
{
    match word {
        Keyword::Break => 0,
        Keyword::Cas => 1,
        Keyword::Continue => 2,
        Keyword::Delete => 3,
        Keyword::Else => 4,
        Keyword::False => 5,
        Keyword::For => 6,
        Keyword::If => 7,
        Keyword::In => 8,
        Keyword::Let => 9,
        Keyword::Null => 10,
        Keyword::Print => 11,
        Keyword::PrintNames => 12,
        Keyword::Shared => 13,
        Keyword::True => 14,
        Keyword::Undefined => 15,
        Keyword::While => 16,
    }
}
