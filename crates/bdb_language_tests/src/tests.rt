// Worked examples of the language, one file for each library, named like it.
mod bind;
mod lex;
mod parse;
mod render;
