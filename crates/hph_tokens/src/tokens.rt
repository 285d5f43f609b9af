use crate::names::{assignment_name, cast_name, keyword_name, mark_name, operator_name};
use hph_ast::{Construct, Kind, LexKind, Token};
use hph_lex::{LexFault, tokens};
use std::alloc::{AllocError, Global};
use std::process::Abort;
use std::test::Fail;

// A file, and its tokens as `describe` writes them. They are those of `token_get_all` of PHP 8.2.

static TAGS: [(&[u8], &str); 20] = [
    (b"", ""),
    (b"a<b", "0 3 InlineText a<b"),
    (b"<?php", ""),
    (b"<?php\n", ""),
    (b"<?php\r\n", ""),
    (b"<?php\t", ""),
    (b"<?PhP ;", "6 7 Mark Semicolon"),
    (b"<?phpx", "0 6 InlineText <?phpx"),
    (b"<?php;", "0 6 InlineText <?php;"),
    (b"<?=", "0 3 Keyword Echo"),
    (b"<?=1?>", "0 3 Keyword Echo; 3 4 Int 1; 4 6 Mark Semicolon"),
    (
        b"a<?php ;?>b",
        "0 1 InlineText a; 7 8 Mark Semicolon; 8 10 Mark Semicolon; 10 11 InlineText b",
    ),
    (
        b"<?php ;?>\nb",
        "6 7 Mark Semicolon; 7 10 Mark Semicolon; 10 11 InlineText b",
    ),
    (
        b"<?php ;?>\r\nb",
        "6 7 Mark Semicolon; 7 11 Mark Semicolon; 11 12 InlineText b",
    ),
    (
        b"<?php ;?>\rb",
        "6 7 Mark Semicolon; 7 10 Mark Semicolon; 10 11 InlineText b",
    ),
    (
        b"<?php ;?>\n\nb",
        "6 7 Mark Semicolon; 7 10 Mark Semicolon; 10 12 InlineText \\x0Ab",
    ),
    (
        b"<?php ?><?php ?>",
        "6 8 Mark Semicolon; 14 16 Mark Semicolon",
    ),
    (
        b"#!x\n<?php ;",
        "0 4 InlineText #!x\\x0A; 10 11 Mark Semicolon",
    ),
    (b"<? ;", "0 4 InlineText <? ;"),
    (b"<?php \r\n;", "8 9 Mark Semicolon"),
];

static COMMENTS: [(&[u8], &str); 13] = [
    (b"<?php // a\n;", "11 12 Mark Semicolon"),
    (b"<?php # a\r;", "10 11 Mark Semicolon"),
    (b"<?php // a\r\n;", "12 13 Mark Semicolon"),
    (
        b"<?php // a ?>b",
        "11 13 Mark Semicolon; 13 14 InlineText b",
    ),
    (b"<?php # a?>\nb", "9 12 Mark Semicolon; 12 13 InlineText b"),
    (b"<?php //", ""),
    (b"<?php /* a */;", "13 14 Mark Semicolon"),
    (b"<?php /**/;", "10 11 Mark Semicolon"),
    (b"<?php /* ?> // */;", "17 18 Mark Semicolon"),
    (b"<?php /* * / **/;", "16 17 Mark Semicolon"),
    (
        b"<?php 1/2;",
        "6 7 Int 1; 7 8 Operator Div; 8 9 Int 2; 9 10 Mark Semicolon",
    ),
    (
        b"<?php /***/;/* */;",
        "11 12 Mark Semicolon; 17 18 Mark Semicolon",
    ),
    (b"<?php #a#[b\n;", "12 13 Mark Semicolon"),
];

static NAMES: [(&[u8], &str); 7] = [
    (
        b"<?php a_1 \xC3\xA9\x80\xFF _;",
        "6 9 Name a_1; 10 14 Name \\xC3\\xA9\\x80\\xFF; 15 16 Name _; 16 17 Mark Semicolon",
    ),
    (
        b"<?php ECHO eCho echo_ echo1;",
        "6 10 Keyword Echo; 11 15 Keyword Echo; 16 21 Name echo_; 22 27 Name echo1; \
         27 28 Mark Semicolon",
    ),
    (
        b"<?php $a $_1 $\x80$If;",
        "6 8 Variable a; 9 12 Variable _1; 13 15 Variable \\x80; 15 18 Variable If; \
         18 19 Mark Semicolon",
    ),
    (
        b"<?php $a->list->LIST A::class::X -> if; if",
        "6 8 Variable a; 8 10 Mark Arrow; 10 14 Name list; 14 16 Mark Arrow; 16 20 Name LIST; \
         21 22 Name A; 22 24 Mark DoubleColon; 24 29 Name class; 29 31 Mark DoubleColon; \
         31 32 Name X; 33 35 Mark Arrow; 36 38 Name if; 38 39 Mark Semicolon; 40 42 Keyword If",
    ),
    (
        b"<?php $a-> /* b */ echo \n::\tfor;",
        "6 8 Variable a; 8 10 Mark Arrow; 19 23 Name echo; 25 27 Mark DoubleColon; \
         28 31 Name for; 31 32 Mark Semicolon",
    ),
    (
        b"<?php true NULL int enum define;",
        "6 10 Name true; 11 15 Name NULL; 16 19 Name int; 20 24 Name enum; 25 31 Name define; \
         31 32 Mark Semicolon",
    ),
    (
        b"<?php and Or XOR;",
        "6 9 Operator LogicalAnd; 10 12 Operator LogicalOr; 13 16 Operator LogicalXor; \
         16 17 Mark Semicolon",
    ),
];

static NUMBERS: [(&[u8], &str); 9] = [
    (
        b"<?php 0 7 42;",
        "6 7 Int 0; 8 9 Int 7; 10 12 Int 42; 12 13 Mark Semicolon",
    ),
    (
        b"<?php 0x1F 0X1f;",
        "6 10 Int 31; 11 15 Int 31; 15 16 Mark Semicolon",
    ),
    (
        b"<?php 0b101 0B1;",
        "6 11 Int 5; 12 15 Int 1; 15 16 Mark Semicolon",
    ),
    (
        b"<?php 0o17 0O17 017 00;",
        "6 10 Int 15; 11 15 Int 15; 16 19 Int 15; 20 22 Int 0; 22 23 Mark Semicolon",
    ),
    (
        b"<?php 1_000 0x1_F 0_7 0b1_0;",
        "6 11 Int 1000; 12 17 Int 31; 18 21 Int 7; 22 27 Int 2; 27 28 Mark Semicolon",
    ),
    (
        b"<?php 9223372036854775807;",
        "6 25 Int 9223372036854775807; 25 26 Mark Semicolon",
    ),
    (
        b"<?php 0x7FFFFFFFFFFFFFFF;",
        "6 24 Int 9223372036854775807; 24 25 Mark Semicolon",
    ),
    (
        b"<?php 1 .a;",
        "6 7 Int 1; 8 9 Operator Concat; 9 10 Name a; 10 11 Mark Semicolon",
    ),
    (b"<?php 5a;", "6 7 Int 5; 7 8 Name a; 8 9 Mark Semicolon"),
];

static STRINGS: [(&[u8], &str); 16] = [
    (b"<?php '';", "6 8 Text ; 8 9 Mark Semicolon"),
    (b"<?php 'a';", "6 9 Text a; 9 10 Mark Semicolon"),
    (
        b"<?php 'a\\'b\\\\';",
        "6 14 Text a'b\\; 14 15 Mark Semicolon",
    ),
    (
        b"<?php '\\n$a\"';",
        "6 13 Text \\n$a\"; 13 14 Mark Semicolon",
    ),
    (
        b"<?php 'a\nb\x00\xFF';",
        "6 13 Text a\\x0Ab\\x00\\xFF; 13 14 Mark Semicolon",
    ),
    (b"<?php \"\";", "6 8 Text ; 8 9 Mark Semicolon"),
    (b"<?php \"a'b\";", "6 11 Text a'b; 11 12 Mark Semicolon"),
    (
        b"<?php \"a\nb\x80\";",
        "6 12 Text a\\x0Ab\\x80; 12 13 Mark Semicolon",
    ),
    (
        b"<?php \"a $ b { } $1\";",
        "6 20 Text a $ b { } $1; 20 21 Mark Semicolon",
    ),
    (
        b"<?php \"\\n\\t\\r\\v\\e\\f\\\\\\$\\\"\";",
        "6 26 Text \\x0A\\x09\\x0D\\x0B\\x1B\\x0C\\$\"; 26 27 Mark Semicolon",
    ),
    (
        b"<?php \"\\0\\12\\101\\400\\8\";",
        "6 23 Text \\x00\\x0AA\\x00\\8; 23 24 Mark Semicolon",
    ),
    (
        b"<?php \"\\x4\\x41\\x414\\xg\";",
        "6 23 Text \\x04AA4\\xg; 23 24 Mark Semicolon",
    ),
    (
        b"<?php \"\\u{0}\\u{7F}\\u{80}\\u{7FF}\\u{800}\";",
        "6 39 Text \\x00\\x7F\\xC2\\x80\\xDF\\xBF\\xE0\\xA0\\x80; 39 40 Mark Semicolon",
    ),
    (
        b"<?php \"\\u{D800}\\u{DFFF}\\u{FFFF}\\u{10000}\\u{10FFFF}\";",
        "6 51 Text \\xED\\xA0\\x80\\xED\\xBF\\xBF\\xEF\\xBF\\xBF\\xF0\\x90\\x80\\x80\\xF4\\x8F\\xBF\\xBF; \
         51 52 Mark Semicolon",
    ),
    (
        b"<?php \"\\u{000000000000041}\\u41\\q\\'\";",
        "6 35 Text A\\u41\\q\\'; 35 36 Mark Semicolon",
    ),
    (b"<?php \"\\{a}\";", "6 12 Text \\{a}; 12 13 Mark Semicolon"),
];

static INTERPOLATIONS: [(&[u8], &str); 19] = [
    (
        b"<?php \"$a\";",
        "6 7 TextHead ; 7 9 Variable a; 9 10 TextTail ; 10 11 Mark Semicolon",
    ),
    (
        b"<?php \"a$b c\";",
        "6 8 TextHead a; 8 10 Variable b; 10 13 TextTail  c; 13 14 Mark Semicolon",
    ),
    (
        b"<?php \"$a$b\";",
        "6 7 TextHead ; 7 9 Variable a; 9 9 TextMiddle ; 9 11 Variable b; 11 12 TextTail ; \
         12 13 Mark Semicolon",
    ),
    (
        b"<?php \"$a[0]$b[12]\";",
        "6 7 TextHead ; 7 9 Variable a; 9 10 Mark OpenBracket; 10 11 Int 0; \
         11 12 Mark CloseBracket; 12 12 TextMiddle ; 12 14 Variable b; 14 15 Mark OpenBracket; \
         15 17 Int 12; 17 18 Mark CloseBracket; 18 19 TextTail ; 19 20 Mark Semicolon",
    ),
    (
        b"<?php \"$a[b] $a[$b]\";",
        "6 7 TextHead ; 7 9 Variable a; 9 10 Mark OpenBracket; 10 11 Name b; \
         11 12 Mark CloseBracket; 12 13 TextMiddle  ; 13 15 Variable a; 15 16 Mark OpenBracket; \
         16 18 Variable b; 18 19 Mark CloseBracket; 19 20 TextTail ; 20 21 Mark Semicolon",
    ),
    (
        b"<?php \"$a[\x80]]\";",
        "6 7 TextHead ; 7 9 Variable a; 9 10 Mark OpenBracket; 10 11 Name \\x80; \
         11 12 Mark CloseBracket; 12 14 TextTail ]; 14 15 Mark Semicolon",
    ),
    (
        b"<?php \"$a->b->c\";",
        "6 7 TextHead ; 7 9 Variable a; 9 11 Mark Arrow; 11 12 Name b; 12 16 TextTail ->c; \
         16 17 Mark Semicolon",
    ),
    (
        b"<?php \"$a-> $b->1\";",
        "6 7 TextHead ; 7 9 Variable a; 9 12 TextMiddle -> ; 12 14 Variable b; \
         14 18 TextTail ->1; 18 19 Mark Semicolon",
    ),
    (
        b"<?php \"{$a}\";",
        "6 7 TextHead ; 7 8 Mark OpenInterpolation; 8 10 Variable a; 10 11 Mark CloseBrace; \
         11 12 TextTail ; 12 13 Mark Semicolon",
    ),
    (
        b"<?php \"x{$a['k']}y\";",
        "6 8 TextHead x; 8 9 Mark OpenInterpolation; 9 11 Variable a; 11 12 Mark OpenBracket; \
         12 15 Text k; 15 16 Mark CloseBracket; 16 17 Mark CloseBrace; 17 19 TextTail y; \
         19 20 Mark Semicolon",
    ),
    (
        b"<?php \"{$a->if(1)}{$b[0]}\";",
        "6 7 TextHead ; 7 8 Mark OpenInterpolation; 8 10 Variable a; 10 12 Mark Arrow; \
         12 14 Name if; 14 15 Mark OpenParen; 15 16 Int 1; 16 17 Mark CloseParen; \
         17 18 Mark CloseBrace; 18 18 TextMiddle ; 18 19 Mark OpenInterpolation; \
         19 21 Variable b; 21 22 Mark OpenBracket; 22 23 Int 0; 23 24 Mark CloseBracket; \
         24 25 Mark CloseBrace; 25 26 TextTail ; 26 27 Mark Semicolon",
    ),
    (
        b"<?php \"{$a[\"b$c\"]}\";",
        "6 7 TextHead ; 7 8 Mark OpenInterpolation; 8 10 Variable a; 10 11 Mark OpenBracket; \
         11 13 TextHead b; 13 15 Variable c; 15 16 TextTail ; 16 17 Mark CloseBracket; \
         17 18 Mark CloseBrace; 18 19 TextTail ; 19 20 Mark Semicolon",
    ),
    (
        b"<?php \"{$f(function () { return 1; })}\";",
        "6 7 TextHead ; 7 8 Mark OpenInterpolation; 8 10 Variable f; 10 11 Mark OpenParen; \
         11 19 Keyword Function; 20 21 Mark OpenParen; 21 22 Mark CloseParen; \
         23 24 Mark OpenBrace; 25 31 Keyword Return; 32 33 Int 1; 33 34 Mark Semicolon; \
         35 36 Mark CloseBrace; 36 37 Mark CloseParen; 37 38 Mark CloseBrace; 38 39 TextTail ; \
         39 40 Mark Semicolon",
    ),
    (
        b"<?php \"\\{$a}\";",
        "6 9 TextHead \\{; 9 11 Variable a; 11 13 TextTail }; 13 14 Mark Semicolon",
    ),
    (
        b"<?php \"\\$a $b\\n\";",
        "6 11 TextHead $a ; 11 13 Variable b; 13 16 TextTail \\x0A; 16 17 Mark Semicolon",
    ),
    (
        b"<?php \"$a?b$c?->1\";",
        "6 7 TextHead ; 7 9 Variable a; 9 11 TextMiddle ?b; 11 13 Variable c; \
         13 18 TextTail ?->1; 18 19 Mark Semicolon",
    ),
    (
        b"<?php \"$a [0]\";",
        "6 7 TextHead ; 7 9 Variable a; 9 14 TextTail  [0]; 14 15 Mark Semicolon",
    ),
    (
        b"<?php \"{ $a}\";",
        "6 9 TextHead { ; 9 11 Variable a; 11 13 TextTail }; 13 14 Mark Semicolon",
    ),
    (
        b"<?php if (1) { \"{$a}\"; } \"$b\";",
        "6 8 Keyword If; 9 10 Mark OpenParen; 10 11 Int 1; 11 12 Mark CloseParen; \
         13 14 Mark OpenBrace; 15 16 TextHead ; 16 17 Mark OpenInterpolation; 17 19 Variable a; \
         19 20 Mark CloseBrace; 20 21 TextTail ; 21 22 Mark Semicolon; 23 24 Mark CloseBrace; \
         25 26 TextHead ; 26 28 Variable b; 28 29 TextTail ; 29 30 Mark Semicolon",
    ),
];

static MARKS: [(&[u8], &str); 12] = [
    (
        b"<?php ( ) [ ] { } , ; ? : -> => ++ -- ! ~ @ ::",
        "6 7 Mark OpenParen; 8 9 Mark CloseParen; 10 11 Mark OpenBracket; \
         12 13 Mark CloseBracket; 14 15 Mark OpenBrace; 16 17 Mark CloseBrace; 18 19 Mark Comma; \
         20 21 Mark Semicolon; 22 23 Mark Question; 24 25 Mark Colon; 26 28 Mark Arrow; \
         29 31 Mark DoubleArrow; 32 34 Mark Increment; 35 37 Mark Decrement; \
         38 39 Mark Exclamation; 40 41 Mark Tilde; 42 43 Mark At; 44 46 Mark DoubleColon",
    ),
    (
        b"<?php + - * / % . < > & | ^ ** == != <> <= >= << >> && || ?? === !== <=>",
        "6 7 Operator Add; 8 9 Operator Sub; 10 11 Operator Mul; 12 13 Operator Div; \
         14 15 Operator Rem; 16 17 Operator Concat; 18 19 Operator Less; 20 21 Operator Greater; \
         22 23 Operator BitAnd; 24 25 Operator BitOr; 26 27 Operator BitXor; 28 30 Operator Pow; \
         31 33 Operator Equal; 34 36 Operator NotEqual; 37 39 Operator NotEqual; \
         40 42 Operator LessEqual; 43 45 Operator GreaterEqual; 46 48 Operator ShiftLeft; \
         49 51 Operator ShiftRight; 52 54 Operator BooleanAnd; 55 57 Operator BooleanOr; \
         58 60 Operator Coalesce; 61 64 Operator Identical; 65 68 Operator NotIdentical; \
         69 72 Operator Spaceship",
    ),
    (
        b"<?php = += -= *= /= %= .= &= |= ^= **= <<= >>= ??=",
        "6 7 Assign Set; 8 10 Assign Add; 11 13 Assign Sub; 14 16 Assign Mul; 17 19 Assign Div; \
         20 22 Assign Rem; 23 25 Assign Concat; 26 28 Assign BitAnd; 29 31 Assign BitOr; \
         32 34 Assign BitXor; 35 38 Assign Pow; 39 42 Assign ShiftLeft; 43 46 Assign ShiftRight; \
         47 50 Assign Coalesce",
    ),
    (
        b"<?php $a+++$b---$c;",
        "6 8 Variable a; 8 10 Mark Increment; 10 11 Operator Add; 11 13 Variable b; \
         13 15 Mark Decrement; 15 16 Operator Sub; 16 18 Variable c; 18 19 Mark Semicolon",
    ),
    (
        b"<?php $a<=>$b<>$c<=$d;",
        "6 8 Variable a; 8 11 Operator Spaceship; 11 13 Variable b; 13 15 Operator NotEqual; \
         15 17 Variable c; 17 19 Operator LessEqual; 19 21 Variable d; 21 22 Mark Semicolon",
    ),
    (
        b"<?php $a??$b?$c:$d::E;",
        "6 8 Variable a; 8 10 Operator Coalesce; 10 12 Variable b; 12 13 Mark Question; \
         13 15 Variable c; 15 16 Mark Colon; 16 18 Variable d; 18 20 Mark DoubleColon; \
         20 21 Name E; 21 22 Mark Semicolon",
    ),
    (
        b"<?php $a**=$b***$c;",
        "6 8 Variable a; 8 11 Assign Pow; 11 13 Variable b; 13 15 Operator Pow; \
         15 16 Operator Mul; 16 18 Variable c; 18 19 Mark Semicolon",
    ),
    (
        b"<?php (int)( Integer )(\tBOOL )(boolean)(string)(array);",
        "6 11 Cast Int; 11 22 Cast Int; 22 30 Cast Bool; 30 39 Cast Bool; 39 47 Cast String; \
         47 54 Cast Array; 54 55 Mark Semicolon",
    ),
    (
        b"<?php (a)(int (2)(integers)(int\n)(float_);",
        "6 7 Mark OpenParen; 7 8 Name a; 8 9 Mark CloseParen; 9 10 Mark OpenParen; \
         10 13 Name int; 14 15 Mark OpenParen; 15 16 Int 2; 16 17 Mark CloseParen; \
         17 18 Mark OpenParen; 18 26 Name integers; 26 27 Mark CloseParen; 27 28 Mark OpenParen; \
         28 31 Name int; 32 33 Mark CloseParen; 33 34 Mark OpenParen; 34 40 Name float_; \
         40 41 Mark CloseParen; 41 42 Mark Semicolon",
    ),
    (
        b"<?php $a[$b]{0};",
        "6 8 Variable a; 8 9 Mark OpenBracket; 9 11 Variable b; 11 12 Mark CloseBracket; \
         12 13 Mark OpenBrace; 13 14 Int 0; 14 15 Mark CloseBrace; 15 16 Mark Semicolon",
    ),
    (
        b"<?php $a?-1:-$b;",
        "6 8 Variable a; 8 9 Mark Question; 9 10 Operator Sub; 10 11 Int 1; 11 12 Mark Colon; \
         12 13 Operator Sub; 13 15 Variable b; 15 16 Mark Semicolon",
    ),
    (
        b"<?php $a=&$b;",
        "6 8 Variable a; 8 9 Assign Set; 9 10 Operator BitAnd; 10 12 Variable b; \
         12 13 Mark Semicolon",
    ),
];

static KEYWORDS: [(&[u8], &str); 2] = [
    (
        b"<?php abstract ARRAY As break CASE Catch class CLONE Const continue DECLARE Default \
          die DO Echo else ELSEIF Empty enddeclare ENDFOR Endforeach endif ENDSWITCH Endwhile \
          eval EXIT Extends final FINALLY Fn for FOREACH Function global GOTO;",
        "6 14 Keyword Abstract; 15 20 Keyword Array; 21 23 Keyword As; 24 29 Keyword Break; \
         30 34 Keyword Case; 35 40 Keyword Catch; 41 46 Keyword Class; 47 52 Keyword Clone; \
         53 58 Keyword Const; 59 67 Keyword Continue; 68 75 Keyword Declare; \
         76 83 Keyword Default; 84 87 Keyword Die; 88 90 Keyword Do; 91 95 Keyword Echo; \
         96 100 Keyword Else; 101 107 Keyword ElseIf; 108 113 Keyword Empty; \
         114 124 Keyword EndDeclare; 125 131 Keyword EndFor; 132 142 Keyword EndForeach; \
         143 148 Keyword EndIf; 149 158 Keyword EndSwitch; 159 167 Keyword EndWhile; \
         168 172 Keyword Eval; 173 177 Keyword Exit; 178 185 Keyword Extends; \
         186 191 Keyword Final; 192 199 Keyword Finally; 200 202 Keyword Fn; \
         203 206 Keyword For; 207 214 Keyword Foreach; 215 223 Keyword Function; \
         224 230 Keyword Global; 231 235 Keyword Goto; 235 236 Mark Semicolon",
    ),
    (
        b"<?php if IMPLEMENTS Include include_once INSTANCEOF Interface isset LIST __class__ \
          __dir__ __FILE__ __function__ __line__ __METHOD__ __namespace__ __trait__ MATCH \
          Namespace new PARENT Print private PROTECTED Public readonly REQUIRE Require_once \
          return SELF Static switch THROW Trait try UNSET Use var WHILE Yield;",
        "6 8 Keyword If; 9 19 Keyword Implements; 20 27 Keyword Include; \
         28 40 Keyword IncludeOnce; 41 51 Keyword InstanceOf; 52 61 Keyword Interface; \
         62 67 Keyword Isset; 68 72 Keyword List; 73 82 Keyword MagicClass; \
         83 90 Keyword MagicDir; 91 99 Keyword MagicFile; 100 112 Keyword MagicFunction; \
         113 121 Keyword MagicLine; 122 132 Keyword MagicMethod; 133 146 Keyword MagicNamespace; \
         147 156 Keyword MagicTrait; 157 162 Keyword Match; 163 172 Keyword Namespace; \
         173 176 Keyword New; 177 183 Keyword Parent; 184 189 Keyword Print; \
         190 197 Keyword Private; 198 207 Keyword Protected; 208 214 Keyword Public; \
         215 223 Keyword ReadOnly; 224 231 Keyword Require; 232 244 Keyword RequireOnce; \
         245 251 Keyword Return; 252 256 Keyword SelfClass; 257 263 Keyword Static; \
         264 270 Keyword Switch; 271 276 Keyword Throw; 277 282 Keyword Trait; \
         283 286 Keyword Try; 287 292 Keyword Unset; 293 296 Keyword Use; 297 300 Keyword Var; \
         301 306 Keyword While; 307 312 Keyword Yield; 312 313 Mark Semicolon",
    ),
];

// A file, and its first fault, by this project's own rules.

static BAD: [(&[u8], LexKind, u32); 34] = [
    (b"<?php 08;", LexKind::BadNumber, 6),
    (b"<?php 1_;", LexKind::BadNumber, 6),
    (b"<?php 1__0;", LexKind::BadNumber, 6),
    (b"<?php 0x;", LexKind::BadNumber, 6),
    (b"<?php 0b2;", LexKind::BadNumber, 6),
    (b"<?php 0o8;", LexKind::BadNumber, 6),
    (b"<?php 1_.5;", LexKind::BadNumber, 6),
    (b"<?php 99999999999999999999_;", LexKind::BadNumber, 6),
    (b"<?php $a = 09;", LexKind::BadNumber, 11),
    (b"<?php 'abc", LexKind::UnclosedString, 6),
    (b"<?php 'a\\'", LexKind::UnclosedString, 6),
    (b"<?php \"abc", LexKind::UnclosedString, 6),
    (b"<?php \"abc\\\"", LexKind::UnclosedString, 6),
    (b"<?php \"a$b", LexKind::UnclosedString, 10),
    (b"<?php \"a$b c", LexKind::UnclosedString, 10),
    (b"<?php \"{$a", LexKind::UnclosedString, 10),
    (b"<?php \"{$a} ", LexKind::UnclosedString, 11),
    (b"<?php \"\\u{", LexKind::UnclosedString, 6),
    (b"<?php \"\\u{} $", LexKind::UnclosedString, 6),
    (b"<?php \"$a{", LexKind::UnclosedString, 9),
    (b"<?php /* a", LexKind::UnclosedComment, 6),
    (b"<?php ; /*/", LexKind::UnclosedComment, 8),
    (b"<?php /* *\\/ ?>", LexKind::UnclosedComment, 6),
    (b"<?php \"\\u{}\"", LexKind::BadEscape, 6),
    (b"<?php \"\\u{110000}\"", LexKind::BadEscape, 6),
    (b"<?php \"\\u{$x}\"", LexKind::BadEscape, 6),
    (b"<?php \"\\u{1\"", LexKind::BadEscape, 6),
    (b"<?php \"a$b\\u{g}\"", LexKind::BadEscape, 10),
    (b"<?php \x01", LexKind::BadByte, 6),
    (b"<?php a \x00", LexKind::BadByte, 8),
    (b"<?php $1;", LexKind::BadByte, 6),
    (b"<?php $ a;", LexKind::BadByte, 6),
    (b"<?php \x0B", LexKind::BadByte, 6),
    (b"<?php ;?>a<?php ; \x7F", LexKind::BadByte, 18),
];

static REFUSED: [(&[u8], Construct, u32); 40] = [
    (b"<?php 1.5;", Construct::FloatLiteral, 6),
    (b"<?php 1.;", Construct::FloatLiteral, 6),
    (b"<?php .5;", Construct::FloatLiteral, 6),
    (b"<?php 1e3;", Construct::FloatLiteral, 6),
    (b"<?php 1E-3;", Construct::FloatLiteral, 6),
    (b"<?php 08.5;", Construct::FloatLiteral, 6),
    (b"<?php 1_0.5;", Construct::FloatLiteral, 6),
    (b"<?php 9223372036854775808;", Construct::FloatLiteral, 6),
    (b"<?php 0xFFFFFFFFFFFFFFFF;", Construct::FloatLiteral, 6),
    (b"<?php 0x1.5;", Construct::FloatLiteral, 9),
    (b"<?php $a = 1; 1.5;", Construct::FloatLiteral, 14),
    (b"<?php 1..2;", Construct::FloatLiteral, 6),
    (b"<?php <<<A\nA;", Construct::Heredoc, 6),
    (b"<?php `ls`;", Construct::ShellExec, 6),
    (b"<?php \"${a}\";", Construct::Interpolation, 7),
    (b"<?php \"{$}\";", Construct::Interpolation, 7),
    (b"<?php \"a{$$b}\";", Construct::Interpolation, 8),
    (b"<?php \"$v[00]\";", Construct::Interpolation, 7),
    (b"<?php \"$v[-1]\";", Construct::Interpolation, 7),
    (b"<?php \"$v[0x1]\";", Construct::Interpolation, 7),
    (
        b"<?php \"$v[9223372036854775808]\";",
        Construct::Interpolation,
        7,
    ),
    (b"<?php \"a $v[b\";", Construct::Interpolation, 9),
    (b"<?php \"$v[]\";", Construct::Interpolation, 7),
    (b"<?php \"$v['b']\";", Construct::Interpolation, 7),
    (b"<?php \"$v?->b\";", Construct::Interpolation, 7),
    (b"<?php \"$a$v?->b\";", Construct::Interpolation, 9),
    (b"<?php #[A] ;", Construct::Attribute, 6),
    (b"<?php $$a;", Construct::VarVar, 6),
    (b"<?php ${'a'};", Construct::VarVar, 6),
    (b"<?php \\a\\b;", Construct::Namespace, 6),
    (b"<?php a\\b;", Construct::Namespace, 7),
    (b"<?php $a?->b;", Construct::NullSafe, 8),
    (b"<?php f(...$a);", Construct::Variadic, 8),
    (b"<?php (float) 1;", Construct::OtherCast, 6),
    (b"<?php ( Double\t) 1;", Construct::OtherCast, 6),
    (b"<?php (real)1;", Construct::OtherCast, 6),
    (b"<?php (object)1;", Construct::OtherCast, 6),
    (b"<?php (UNSET)1;", Construct::OtherCast, 6),
    (b"<?php (binary)1;", Construct::OtherCast, 6),
    (b"<?=1;?>\n<?php\n`", Construct::ShellExec, 14),
];

fn outcome_of(rt: &impl Abort, alloc: Global, file: &[u8]) -> Result<Vec<Token>, LexFault> {
    assert!(rt; file.len() < 1 << 32);
    tokens(alloc, file)
}

// A kind and its text, with what isn't printable ASCII in hexadecimal.
fn spelled(alloc: Global, sort: &str, bytes: &[u8]) -> Result<String, AllocError> {
    let mut text = format!(in alloc; "{sort} ")?;
    for byte in bytes {
        if byte.is_ascii_graphic() || *byte == b' ' {
            text.push(char::from(*byte))?;
        } else {
            let code = format!(in alloc; "\\x{byte:02X}")?;
            text.push_str(code.as_str())?;
        }
    }
    Ok(text)
}

fn describe_kind(alloc: Global, kind: &Kind) -> Result<String, AllocError> {
    match kind {
        Kind::InlineText(text) => spelled(alloc, "InlineText", text.as_slice()),
        Kind::Int(value) => format!(in alloc; "Int {value}"),
        Kind::Text(text) => spelled(alloc, "Text", text.as_slice()),
        Kind::TextHead(text) => spelled(alloc, "TextHead", text.as_slice()),
        Kind::TextMiddle(text) => spelled(alloc, "TextMiddle", text.as_slice()),
        Kind::TextTail(text) => spelled(alloc, "TextTail", text.as_slice()),
        Kind::Variable(text) => spelled(alloc, "Variable", text.as_slice()),
        Kind::Name(text) => spelled(alloc, "Name", text.as_slice()),
        Kind::Keyword(keyword) => format!(in alloc; "Keyword {}", keyword_name(*keyword)),
        Kind::Operator(operator) => format!(in alloc; "Operator {}", operator_name(*operator)),
        Kind::Assign(assignment) => format!(in alloc; "Assign {}", assignment_name(*assignment)),
        Kind::Cast(cast) => format!(in alloc; "Cast {}", cast_name(*cast)),
        Kind::Mark(mark) => format!(in alloc; "Mark {}", mark_name(*mark)),
    }
}

// The start, the end and the kind of each token.
fn describe(alloc: Global, tokens: &[Token]) -> Result<String, AllocError> {
    let mut text = String::new(alloc);
    for token in tokens {
        if !text.is_empty() {
            text.push_str("; ")?;
        }
        let kind = describe_kind(alloc, &token.kind)?;
        let all = format!(in alloc; "{} {} {}", token.start, token.end, kind)?;
        text.push_str(all.as_str())?;
    }
    Ok(text)
}

fn gives_these(rt: &impl Abort, alloc: Global, rows: &[(&[u8], &str)]) -> Result<(), Fail> {
    for (file, wanted) in rows {
        let found = match outcome_of(rt, alloc, file) {
            Ok(found) => found,
            Err(_) => panic!(rt; "{file:?} spells no tokens"),
        };
        let described = describe(alloc, found.as_slice())?;
        assert_eq!(rt; described.as_str(), *wanted, "of {file:?}");
    }
    Ok(())
}

#[test]
fn opens_and_closes_code_by_tags(rt: HostRuntime) -> Result<(), Fail> {
    gives_these(&rt, rt.alloc(), &TAGS)
}

#[test]
fn skips_comments(rt: HostRuntime) -> Result<(), Fail> {
    gives_these(&rt, rt.alloc(), &COMMENTS)
}

#[test]
fn tells_names_from_keywords(rt: HostRuntime) -> Result<(), Fail> {
    gives_these(&rt, rt.alloc(), &NAMES)
}

#[test]
fn reads_numbers_of_each_base(rt: HostRuntime) -> Result<(), Fail> {
    gives_these(&rt, rt.alloc(), &NUMBERS)
}

#[test]
fn reads_strings_and_their_escapes(rt: HostRuntime) -> Result<(), Fail> {
    gives_these(&rt, rt.alloc(), &STRINGS)
}

#[test]
fn reads_interpolations_in_strings(rt: HostRuntime) -> Result<(), Fail> {
    gives_these(&rt, rt.alloc(), &INTERPOLATIONS)
}

#[test]
fn reads_the_longest_mark(rt: HostRuntime) -> Result<(), Fail> {
    gives_these(&rt, rt.alloc(), &MARKS)
}

#[test]
fn knows_each_keyword_in_any_case(rt: HostRuntime) -> Result<(), Fail> {
    gives_these(&rt, rt.alloc(), &KEYWORDS)
}

#[test]
fn tells_where_no_token_begins(rt: HostRuntime) {
    for (file, kind, offset) in &BAD {
        let fault = outcome_of(&rt, rt.alloc(), file).err();
        assert!(rt; fault == Some(LexFault::Bad(*kind, *offset)), "of {file:?}");
    }
}

#[test]
fn tells_where_a_construct_is_refused(rt: HostRuntime) {
    for (file, which, offset) in &REFUSED {
        let fault = outcome_of(&rt, rt.alloc(), file).err();
        assert!(rt;
            fault == Some(LexFault::Refused(*which, *offset)),
            "of {file:?}"
        );
    }
}
