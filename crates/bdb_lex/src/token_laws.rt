// Laws of tokens.
ghost use Rattle.bdb_lex.specs.TokenGrammar.{TokensAreFormed, TokensAreSpelled};

/// What is found in a piece is what is spelled there: each token the longest that fits, with blanks and comments between.
#[tactic(auto, using(crate::proofs::SpellingLemmas::tokens_are_spelled))]
pub fn tokens_are_spelled()
    ensures { TokensAreSpelled }
{}

/// A word that is found is a letter and then letters and digits, at most 255 bytes; the content of a text is UTF-8 without
/// control characters.
#[tactic(auto, using(crate::proofs::SpellingLemmas::tokens_are_formed))]
pub fn tokens_are_formed()
    ensures { TokensAreFormed }
{}
