//! Files as words with blanks between, and what they spell.

use hph_ast::{Assignment, Binary, FileTree, Keyword, Kind, Mark, Statement, Token};
use hph_parse::{TreeFault, parse};
use sqlite_items::Items;
use std::alloc::Global;
use std::test::Fail;

static KEYWORDS: [(&str, Keyword); 31] = [
    ("array", Keyword::Array),
    ("as", Keyword::As),
    ("break", Keyword::Break),
    ("case", Keyword::Case),
    ("class", Keyword::Class),
    ("const", Keyword::Const),
    ("continue", Keyword::Continue),
    ("default", Keyword::Default),
    ("do", Keyword::Do),
    ("echo", Keyword::Echo),
    ("else", Keyword::Else),
    ("elseif", Keyword::ElseIf),
    ("extends", Keyword::Extends),
    ("for", Keyword::For),
    ("foreach", Keyword::Foreach),
    ("function", Keyword::Function),
    ("global", Keyword::Global),
    ("if", Keyword::If),
    ("parent", Keyword::Parent),
    ("private", Keyword::Private),
    ("protected", Keyword::Protected),
    ("public", Keyword::Public),
    ("return", Keyword::Return),
    ("self", Keyword::SelfClass),
    ("static", Keyword::Static),
    ("switch", Keyword::Switch),
    ("unset", Keyword::Unset),
    ("var", Keyword::Var),
    ("while", Keyword::While),
    ("try", Keyword::Try),
    ("goto", Keyword::Goto),
];

static MARKS: [(&str, Mark); 12] = [
    ("(", Mark::OpenParen),
    (")", Mark::CloseParen),
    ("[", Mark::OpenBracket),
    ("]", Mark::CloseBracket),
    ("{", Mark::OpenBrace),
    ("}", Mark::CloseBrace),
    (",", Mark::Comma),
    (";", Mark::Semicolon),
    ("?", Mark::Question),
    (":", Mark::Colon),
    ("::", Mark::DoubleColon),
    ("=>", Mark::DoubleArrow),
];

/// Each form of statement (PHP manual, Control Structures, Functions, Classes and Objects), and how many stand in the file.
static FILES: [(&str, usize); 52] = [
    ("", 0),
    (";", 1),
    ("<p> ; <p>", 3),
    ("{ }", 1),
    ("{ ; { ; } }", 1),
    ("$a ; f ( ) ; 1 ;", 3),
    ("if ( 1 ) ;", 1),
    ("if ( 1 ) ; else ;", 1),
    ("if ( 1 ) ; elseif ( 2 ) ; elseif ( 3 ) ; else ;", 1),
    ("if ( 1 ) if ( 2 ) ; else ; else ;", 1),
    ("while ( 1 ) ;", 1),
    ("do ; while ( 1 ) ;", 1),
    ("for ( ; ; ) ;", 1),
    ("for ( 1 , 2 ; 3 ; $a , $b ) { }", 1),
    ("foreach ( $a as $b ) ;", 1),
    ("foreach ( $a as $b => $c ) ;", 1),
    ("foreach ( $a as & $b ) ;", 1),
    ("foreach ( $a as $b => [ $c , , $d ] ) ;", 1),
    ("switch ( 1 ) { }", 1),
    (
        "switch ( 1 ) { case 1 : case 2 ; ; default : ; break ; }",
        1,
    ),
    ("break ; break 2 ;", 2),
    ("continue ; continue 2 ;", 2),
    ("return ; return 1 ;", 2),
    ("echo 1 ; echo 1 , 2 ;", 2),
    ("global $a ; global $a , $b ;", 2),
    ("static $a ; static $a = 1 , $b ;", 2),
    ("static :: $a ;", 1),
    ("unset ( $a ) ; unset ( $a , $b ) ;", 2),
    ("const A = 1 ; const A = 1 , B = 2 ;", 2),
    ("function f ( ) { }", 1),
    ("function f ( $a , $b = 1 , ) { return ; }", 1),
    ("function f ( int $a , & $b , ? A & $c ) { }", 1),
    (
        "function f ( array $a , self $b , parent | A | B $c ) { }",
        1,
    ),
    ("function f ( ) : ? A { }", 1),
    ("{ function f ( ) { } }", 1),
    ("class A { }", 1),
    ("class A extends B { }", 1),
    ("class A { const B = 1 , C = 2 ; private const D = 1 ; }", 1),
    ("class A { public $a ; var $b = 1 , $c ; static $d ; }", 1),
    ("class A { static protected ? B $c ; private int $d ; }", 1),
    (
        "class A { function f ( ) { } public static function g ( ) : self { } }",
        1,
    ),
    ("if ( 1 ) { class A { } }", 1),
    ("for ( $a = 1 ; ; ) for ( ; ; ) ;", 1),
    ("while ( 1 ) do ; while ( 1 ) ;", 1),
    ("do do ; while ( 1 ) ; while ( 1 ) ;", 1),
    ("do if ( 1 ) ; else ; while ( 1 ) ;", 1),
    ("foreach ( f ( ) as $a ) foreach ( $a as $b ) ;", 1),
    ("switch ( 1 ) { default ; if ( 1 ) ; case 1 : { } }", 1),
    ("return [ 1 , 2 ] ;", 1),
    ("echo $a = 1 ;", 1),
    ("$a = 1 ; static $b ;", 2),
    ("function f ( ) { static $a ; global $b ; const_ ; }", 1),
];

/// What is no file. PHP refuses each too.
static REFUSED: [&str; 45] = [
    "}",
    "case 1 : ;",
    "{",
    "{ ; ",
    "1",
    "$a",
    "1 2 ;",
    "if 1 ;",
    "if ( ) ;",
    "if ( 1 )",
    "if ( 1 ) else ;",
    "else ;",
    "elseif ( 1 ) ;",
    "if ( 1 ) ; else ; else ;",
    "if ( 1 ) ; else ; elseif ( 2 ) ;",
    "while ( 1 )",
    "do ;",
    "do ; while ( 1 )",
    "for ( ; ) ;",
    "for ( 1 , ; ; ) ;",
    "foreach ( $a ) ;",
    "foreach ( $a as ) ;",
    "foreach ( $a as 1 ) ;",
    "switch ( 1 ) { default : default : }",
    "switch ( 1 ) { case : }",
    "switch 1 { }",
    "break $a ;",
    "continue 1",
    "return 1",
    "echo ;",
    "echo 1 , ;",
    "global ;",
    "global A ;",
    "unset ( ) ;",
    "unset ( 1 ) ;",
    "{ const A = 1 ; }",
    "const A ;",
    "const A = $a ;",
    "function ( ) { }",
    "function f { }",
    "function f ( A ) { }",
    "function f ( $a = $b ) { }",
    "class A { ; }",
    "class A { $a ; }",
    "class A { public private $a ; }",
];

fn bytes(alloc: Global, word: &str) -> Result<Items<u8>, Fail> {
    Ok(Items::from_slice(alloc, word.as_bytes())?)
}

/// What a word is as a token; a number is 1.
fn kind(alloc: Global, word: &str) -> Result<Kind, Fail> {
    for (spelled, keyword) in &KEYWORDS {
        if word == *spelled {
            return Ok(Kind::Keyword(*keyword));
        }
    }
    for (spelled, mark) in &MARKS {
        if word == *spelled {
            return Ok(Kind::Mark(*mark));
        }
    }
    match word.as_bytes() {
        [b'$', ..] => Ok(Kind::Variable(bytes(alloc, word)?)),
        [b'0'..=b'9', ..] => Ok(Kind::Int(1)),
        [b'<', ..] => Ok(Kind::InlineText(bytes(alloc, word)?)),
        b"=" => Ok(Kind::Assign(Assignment::Set)),
        b"&" => Ok(Kind::Operator(Binary::BitAnd)),
        b"|" => Ok(Kind::Operator(Binary::BitOr)),
        _ => Ok(Kind::Name(bytes(alloc, word)?)),
    }
}

fn read(alloc: Global, text: &str) -> Result<Result<FileTree, TreeFault>, Fail> {
    let mut tokens = Vec::new(alloc);
    for word in text.split_whitespace() {
        tokens.push(Token {
            kind: kind(alloc, word)?,
            start: 0,
            end: 1,
        })?;
    }
    Ok(parse(alloc, tokens.as_slice()))
}

/// How a text with so many copies of one, then of another, is read.
fn read_copies(
    alloc: Global,
    first: &str,
    second: &str,
    copies: usize,
) -> Result<Result<FileTree, TreeFault>, Fail> {
    let mut text = String::new(alloc);
    for _copy in 0..copies {
        text.push_str(first)?;
    }
    for _copy in 0..copies {
        text.push_str(second)?;
    }
    read(alloc, text.as_str())
}

#[test]
fn reads_each_form_of_statement(rt: HostRuntime) -> Result<(), Fail> {
    for (text, count) in &FILES {
        match read(rt.alloc(), text)? {
            Ok(file) => assert_eq!(rt; file.statements.len(), *count, "at {text}"),
            Err(fault) => assert!(rt; false, "{fault:?} at {text}"),
        }
    }
    Ok(())
}

#[test]
fn refuses_what_is_no_file(rt: HostRuntime) -> Result<(), Fail> {
    for text in &REFUSED {
        let answer = read(rt.alloc(), text)?;
        assert!(rt; matches!(answer, Err(TreeFault::Syntax(_))), "at {text}");
    }
    Ok(())
}

#[test]
fn a_semicolon_before_the_first_label_is_refused_though_php_reads_it(
    rt: HostRuntime,
) -> Result<(), Fail> {
    let answer = read(rt.alloc(), "switch ( 1 ) { ; case 1 : }")?;
    assert!(rt; matches!(answer, Err(TreeFault::Syntax(_))));
    Ok(())
}

#[test]
fn an_else_belongs_to_the_nearest_if(rt: HostRuntime) -> Result<(), Fail> {
    let answer = read(rt.alloc(), "if ( 1 ) if ( 2 ) ; else ;")?;
    let Ok(file) = answer else {
        return Err(Fail::new("no tree"));
    };
    assert!(rt;
        matches!(
            file.statements.as_slice(),
            [Statement::If { other: None, .. }]
        )
    );
    Ok(())
}

#[test]
fn the_257th_open_bracket_is_too_deep(rt: HostRuntime) -> Result<(), Fail> {
    assert!(rt; read_copies(rt.alloc(), "{ ", "} ", 256)?.is_ok());
    let answer = read_copies(rt.alloc(), "{ ", "} ", 257)?;
    assert!(rt; matches!(answer, Err(TreeFault::TooDeep(256))));
    Ok(())
}

#[test]
fn a_tree_is_nested_512_deep_at_most(rt: HostRuntime) -> Result<(), Fail> {
    assert!(rt; read_copies(rt.alloc(), "while ( 1 ) ", "; ", 510)?.is_ok());
    let answer = read_copies(rt.alloc(), "while ( 1 ) ", "; ", 511)?;
    assert!(rt; matches!(answer, Err(TreeFault::Syntax(_))));
    Ok(())
}
