// Keywords and the words that are no names.
ghost use Rattle.std.specs.Prelude.{◌≡◌};
ghost use Rattle.bdb_syntax.specs.Keywords.{is_keyword, is_reserved};

use bdb_lex::TokenText;

/// Whether a word is this keyword, in any case.
pub fn is_keyword(keyword: &str, word: &TokenText<'_>) -> bool
    ensures { result ≡ is_keyword keyword.now word.now }
{
    word.as_str().eq_ignore_ascii_case(keyword)
}

/// Whether a word is a keyword that is no name, in any case.
pub fn is_reserved(word: &TokenText<'_>) -> bool
    ensures { result ≡ is_reserved word.now }
{
    is_keyword("and", word)
        || is_keyword("as", word)
        || is_keyword("belief", word)
        || is_keyword("delete", word)
        || is_keyword("from", word)
        || is_keyword("insert", word)
        || is_keyword("into", word)
        || is_keyword("not", word)
        || is_keyword("or", word)
        || is_keyword("select", word)
        || is_keyword("set", word)
        || is_keyword("update", word)
        || is_keyword("values", word)
        || is_keyword("where", word)
}
