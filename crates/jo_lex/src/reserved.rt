// The reserved words.
ghost use Rattle.std.specs.Prelude.{◌≡◌, ◌==◌, length, filter};
ghost use Rattle.std.specs.List.{find};
ghost use Rattle.std.specs.Option.{option_copied};
ghost use Rattle.std.specs.Str.{bytes_eq};
ghost use Rattle.jo_lex.specs.Words.{reserved_as};
ghost use Rattle.jo_lex.specs.inner.Views.{rows_of, reserved_rows};

use jo_parse_tree::Keyword;

// A reserved word, and its keyword where the grammar names it.
type Row = (&'static str, Option<Keyword>);

// Those of so many bytes.
fn of_length(bytes: usize) -> &'static [Row]
    ensures { rows_of result.now ≡ filter (λ row. length row.0 == bytes) reserved_rows }
{
    match bytes {
        2 => &[
            ("do", None),
            ("if", Some(Keyword::If)),
            ("in", Some(Keyword::In)),
        ],
        3 => &[
            ("for", Some(Keyword::For)),
            ("new", None),
            ("try", None),
            ("var", None),
            ("let", Some(Keyword::Let)),
            ("cas", Some(Keyword::Cas)),
        ],
        4 => &[
            ("case", None),
            ("else", Some(Keyword::Else)),
            ("enum", None),
            ("null", Some(Keyword::Null)),
            ("this", None),
            ("true", Some(Keyword::True)),
            ("void", None),
            ("with", None),
            ("eval", None),
            ("recv", None),
            ("send", None),
        ],
        5 => &[
            ("await", None),
            ("break", Some(Keyword::Break)),
            ("catch", None),
            ("class", None),
            ("const", None),
            ("false", Some(Keyword::False)),
            ("super", None),
            ("throw", None),
            ("while", Some(Keyword::While)),
            ("yield", None),
            ("print", Some(Keyword::Print)),
        ],
        6 => &[
            ("delete", Some(Keyword::Delete)),
            ("export", None),
            ("import", None),
            ("return", None),
            ("switch", None),
            ("typeof", None),
            ("static", None),
            ("public", None),
            ("create", None),
            ("freeze", None),
            ("shared", Some(Keyword::Shared)),
        ],
        7 => &[
            ("default", None),
            ("extends", None),
            ("finally", None),
            ("package", None),
            ("private", None),
        ],
        8 => &[
            ("continue", Some(Keyword::Continue)),
            ("debugger", None),
            ("function", None),
        ],
        9 => &[
            ("interface", None),
            ("protected", None),
            ("arguments", None),
            ("undefined", Some(Keyword::Undefined)),
        ],
        10 => &[
            ("instanceof", None),
            ("implements", None),
            ("printNames", Some(Keyword::PrintNames)),
        ],
        _ => &[],
    }
}

// The row of the word among these.
fn row_of<'a>(rows: &'a [Row], word: &str) -> Option<&'a Row>
    ensures { option_copied result ≡ find (λ row. bytes_eq row.0.now word.now) rows.now }
{
    rows.iter().find(|row| row.0 == word)
}

/// Of a word that no variable may have as its name, the keyword, where the grammar names it; none of another word.
pub(crate) fn reserved(word: &str) -> Option<Option<Keyword>>
    ensures { result ≡ reserved_as word.now }
{
    let row = row_of(of_length(word.len()), word)?;
    Some(row.1)
}
