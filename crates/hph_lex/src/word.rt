//! Keywords (PHP manual, List of Keywords).
ghost use Rattle.std.specs.Prelude.{◌≡◌, ◌∷◌, ℕ, List, map};
ghost use Rattle.hph_ast.specs.Bytes.{lower};
ghost use Rattle.hph_ast.specs.Words.{kind_in, keywords};
ghost use Rattle.hph_ast.specs.declared.token.Kind.TheVariants as k;
ghost use Rattle.hph_lex.specs.Tables.{word_kind, word_row};
ghost use Rattle.std.specs.Option.{option_map_or};

use crate::bytes::{is_word, lower};
use hph_ast::{Binary, Keyword};

/// A keyword, or an operator that is a word.
#[derive(Clone, Copy, PartialEq, Eq)]
pub enum Word {
    Keyword(Keyword),
    Operator(Binary),
}

/// The keyword that a name is, in any ASCII case.
pub fn keyword(name: &[u8]) -> Option<Word>
    ensures { kind_in keywords name.now ≡ option_map_or word_kind result (k.Name name.now) }
{
    match name {
        [] => None,
        [first, ..] => word_in(words_from(lower(*first)), name),
    }
}

/// The keywords that begin with a letter, in lower case.
fn words_from(letter: u8) -> &'static [(&'static [u8], Word)]
    // A name that begins with the letter in either case is of the same kind by these rows as by those of all keywords.
    ensures { (first : ℕ) (rest : List ℕ) → lower first ≡ letter →
        kind_in (map word_row result.now) (first ∷ rest) ≡ kind_in keywords (first ∷ rest) }
{
    match letter {
        b'a' => &[
            (b"abstract", Word::Keyword(Keyword::Abstract)),
            (b"array", Word::Keyword(Keyword::Array)),
            (b"as", Word::Keyword(Keyword::As)),
            (b"and", Word::Operator(Binary::LogicalAnd)),
        ],
        b'b' => &[(b"break", Word::Keyword(Keyword::Break))],
        b'c' => &[
            (b"case", Word::Keyword(Keyword::Case)),
            (b"catch", Word::Keyword(Keyword::Catch)),
            (b"class", Word::Keyword(Keyword::Class)),
            (b"clone", Word::Keyword(Keyword::Clone)),
            (b"const", Word::Keyword(Keyword::Const)),
            (b"continue", Word::Keyword(Keyword::Continue)),
        ],
        b'd' => &[
            (b"declare", Word::Keyword(Keyword::Declare)),
            (b"default", Word::Keyword(Keyword::Default)),
            (b"die", Word::Keyword(Keyword::Die)),
            (b"do", Word::Keyword(Keyword::Do)),
        ],
        b'e' => &[
            (b"echo", Word::Keyword(Keyword::Echo)),
            (b"else", Word::Keyword(Keyword::Else)),
            (b"elseif", Word::Keyword(Keyword::ElseIf)),
            (b"empty", Word::Keyword(Keyword::Empty)),
            (b"enddeclare", Word::Keyword(Keyword::EndDeclare)),
            (b"endfor", Word::Keyword(Keyword::EndFor)),
            (b"endforeach", Word::Keyword(Keyword::EndForeach)),
            (b"endif", Word::Keyword(Keyword::EndIf)),
            (b"endswitch", Word::Keyword(Keyword::EndSwitch)),
            (b"endwhile", Word::Keyword(Keyword::EndWhile)),
            (b"eval", Word::Keyword(Keyword::Eval)),
            (b"exit", Word::Keyword(Keyword::Exit)),
            (b"extends", Word::Keyword(Keyword::Extends)),
        ],
        b'f' => &[
            (b"final", Word::Keyword(Keyword::Final)),
            (b"finally", Word::Keyword(Keyword::Finally)),
            (b"fn", Word::Keyword(Keyword::Fn)),
            (b"for", Word::Keyword(Keyword::For)),
            (b"foreach", Word::Keyword(Keyword::Foreach)),
            (b"function", Word::Keyword(Keyword::Function)),
        ],
        b'g' => &[
            (b"global", Word::Keyword(Keyword::Global)),
            (b"goto", Word::Keyword(Keyword::Goto)),
        ],
        b'_' => &[
            (b"__halt_compiler", Word::Keyword(Keyword::HaltCompiler)),
            (b"__class__", Word::Keyword(Keyword::MagicClass)),
            (b"__dir__", Word::Keyword(Keyword::MagicDir)),
            (b"__file__", Word::Keyword(Keyword::MagicFile)),
            (b"__function__", Word::Keyword(Keyword::MagicFunction)),
            (b"__line__", Word::Keyword(Keyword::MagicLine)),
            (b"__method__", Word::Keyword(Keyword::MagicMethod)),
            (b"__namespace__", Word::Keyword(Keyword::MagicNamespace)),
            (b"__trait__", Word::Keyword(Keyword::MagicTrait)),
        ],
        b'i' => &[
            (b"if", Word::Keyword(Keyword::If)),
            (b"implements", Word::Keyword(Keyword::Implements)),
            (b"include", Word::Keyword(Keyword::Include)),
            (b"include_once", Word::Keyword(Keyword::IncludeOnce)),
            (b"instanceof", Word::Keyword(Keyword::InstanceOf)),
            (b"interface", Word::Keyword(Keyword::Interface)),
            (b"isset", Word::Keyword(Keyword::Isset)),
        ],
        b'l' => &[(b"list", Word::Keyword(Keyword::List))],
        b'm' => &[(b"match", Word::Keyword(Keyword::Match))],
        b'n' => &[
            (b"namespace", Word::Keyword(Keyword::Namespace)),
            (b"new", Word::Keyword(Keyword::New)),
        ],
        b'p' => &[
            (b"parent", Word::Keyword(Keyword::Parent)),
            (b"print", Word::Keyword(Keyword::Print)),
            (b"private", Word::Keyword(Keyword::Private)),
            (b"protected", Word::Keyword(Keyword::Protected)),
            (b"public", Word::Keyword(Keyword::Public)),
        ],
        b'r' => &[
            (b"readonly", Word::Keyword(Keyword::ReadOnly)),
            (b"require", Word::Keyword(Keyword::Require)),
            (b"require_once", Word::Keyword(Keyword::RequireOnce)),
            (b"return", Word::Keyword(Keyword::Return)),
        ],
        b's' => &[
            (b"self", Word::Keyword(Keyword::SelfClass)),
            (b"static", Word::Keyword(Keyword::Static)),
            (b"switch", Word::Keyword(Keyword::Switch)),
        ],
        b't' => &[
            (b"throw", Word::Keyword(Keyword::Throw)),
            (b"trait", Word::Keyword(Keyword::Trait)),
            (b"try", Word::Keyword(Keyword::Try)),
        ],
        b'u' => &[
            (b"unset", Word::Keyword(Keyword::Unset)),
            (b"use", Word::Keyword(Keyword::Use)),
        ],
        b'v' => &[(b"var", Word::Keyword(Keyword::Var))],
        b'w' => &[(b"while", Word::Keyword(Keyword::While))],
        b'y' => &[(b"yield", Word::Keyword(Keyword::Yield))],
        b'x' => &[(b"xor", Word::Operator(Binary::LogicalXor))],
        b'o' => &[(b"or", Word::Operator(Binary::LogicalOr))],
        _ => &[],
    }
}

/// The first row of a table whose word this is.
fn word_in(table: &[(&[u8], Word)], name: &[u8]) -> Option<Word>
    ensures { kind_in (map word_row table.now) name.now ≡ option_map_or word_kind result (k.Name name.now) }
{
    for (text, word) in table {
        if is_word(text, name) {
            return Some(*word);
        }
    }
    None
}
