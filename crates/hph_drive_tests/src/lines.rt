//! Sources, and the lines that show their faults: the kinds and offsets are those of the rules in docs/LANGUAGE.md.

/// What is lexed, read or told by tokens and trees to be a fault, each kind once at least; then nodes that aren't compiled yet; then
/// files with two faults, of which the one that is tested for first counts.
pub static LINES: [(&[u8], &str); 94] = [
    (
        b"<?php echo 3, 1.5;",
        "refused: m.php:14: construct FloatLiteral\n",
    ),
    (
        b"<?php echo 9223372036854775808;",
        "refused: m.php:11: construct FloatLiteral\n",
    ),
    (
        b"<?php echo 1e3;",
        "refused: m.php:11: construct FloatLiteral\n",
    ),
    (
        b"<?php echo <<<A\nx\nA;",
        "refused: m.php:11: construct Heredoc\n",
    ),
    (
        b"<?php echo `ls`;",
        "refused: m.php:11: construct ShellExec\n",
    ),
    (
        b"<?php echo \"x${v}\";",
        "refused: m.php:13: construct Interpolation\n",
    ),
    (
        b"<?php echo \"$v[-1]\";",
        "refused: m.php:12: construct Interpolation\n",
    ),
    (
        b"<?php #[A]\nfunction f() {}",
        "refused: m.php:6: construct Attribute\n",
    ),
    (b"<?php echo $$a;", "refused: m.php:11: construct VarVar\n"),
    (
        b"<?php echo ${'a'};",
        "refused: m.php:11: construct VarVar\n",
    ),
    (
        b"<?php echo \\f();",
        "refused: m.php:11: construct Namespace\n",
    ),
    (
        b"<?php echo $a?->b;",
        "refused: m.php:13: construct NullSafe\n",
    ),
    (b"<?php f(...$a);", "refused: m.php:8: construct Variadic\n"),
    (
        b"<?php echo (float) 1;",
        "refused: m.php:11: construct OtherCast\n",
    ),
    (b"<?php eval('1;');", "refused: m.php:6: construct Eval\n"),
    (
        b"<?php function f() { yield 1; }",
        "refused: m.php:21: construct Generator\n",
    ),
    (
        b"<?php $f = fn($x) => $x;",
        "refused: m.php:11: construct Closure\n",
    ),
    (
        b"<?php $f = function () {};",
        "refused: m.php:11: construct Closure\n",
    ),
    (
        b"<?php function &f() {}",
        "refused: m.php:6: construct RefReturn\n",
    ),
    (
        b"<?php try { } catch (E $e) { }",
        "refused: m.php:6: construct Exceptions\n",
    ),
    (
        b"<?php throw 1;",
        "refused: m.php:6: construct Exceptions\n",
    ),
    (
        b"<?php interface I {}",
        "refused: m.php:6: construct TypeKind\n",
    ),
    (
        b"<?php abstract class A {}",
        "refused: m.php:6: construct TypeKind\n",
    ),
    (
        b"<?php enum E { }",
        "refused: m.php:6: construct TypeKind\n",
    ),
    (
        b"<?php namespace a;",
        "refused: m.php:6: construct Namespace\n",
    ),
    (b"<?php use a;", "refused: m.php:6: construct Namespace\n"),
    (
        b"<?php declare(strict_types=1);",
        "refused: m.php:6: construct Declare\n",
    ),
    (b"<?php goto a;", "refused: m.php:6: construct Goto\n"),
    (
        b"<?php echo match (1) { };",
        "refused: m.php:11: construct Match\n",
    ),
    (
        b"<?php if (1): echo 1; endif;",
        "refused: m.php:22: construct AltSyntax\n",
    ),
    (
        b"<?php list($a) = $b;",
        "refused: m.php:6: construct Destructure\n",
    ),
    (
        b"<?php $b = clone $a;",
        "refused: m.php:11: construct Clone\n",
    ),
    (
        b"<?php echo 1; __halt_compiler();",
        "refused: m.php:14: construct Halt\n",
    ),
    (
        b"<?php echo __LINE__;",
        "refused: m.php:11: construct MagicConstant\n",
    ),
    (
        b"<?php echo $_GET;",
        "refused: m.php:11: construct Superglobal\n",
    ),
    (
        b"<?php echo $GLOBALS['a'];",
        "refused: m.php:11: construct Superglobal\n",
    ),
    (
        b"<?php function f(int $x) {}",
        "refused: m.php:17: construct TypeDeclared\n",
    ),
    (
        b"<?php function f(): ?int {}",
        "refused: m.php:20: construct TypeDeclared\n",
    ),
    (
        b"<?php class A { public int $x; }",
        "refused: m.php:23: construct TypeDeclared\n",
    ),
    (
        b"<?php f(x: 1);",
        "refused: m.php:8: construct NamedArgument\n",
    ),
    (b"<?php $f(1);", "refused: m.php:6: construct Dynamic\n"),
    (b"<?php new $c;", "refused: m.php:10: construct Dynamic\n"),
    (
        b"<?php echo $a->$b;",
        "refused: m.php:15: construct Dynamic\n",
    ),
    (
        b"<?php [$a, $b] = $c;",
        "refused: m.php:6: construct Destructure\n",
    ),
    (
        b"<?php foreach ($a as [$b]) {}",
        "refused: m.php:21: construct Destructure\n",
    ),
    (
        b"<?php foreach ($a as &$b) {}",
        "refused: m.php:21: construct RefElement\n",
    ),
    (
        b"<?php $a = [&$b];",
        "refused: m.php:12: construct RefElement\n",
    ),
    (
        b"<?php $a[0] = &$b;",
        "refused: m.php:14: construct RefElement\n",
    ),
    (
        b"<?php echo A::class;",
        "refused: m.php:12: construct ClassName\n",
    ),
    (
        b"<?php class A { function __get($x) {} }",
        "refused: m.php:25: construct MagicMethod\n",
    ),
    (
        b"<?php echo __DIR__;",
        "refused: m.php:11: construct MagicConstant\n",
    ),
    (
        b"<?php include $x;",
        "refused: m.php:14: construct IncludePath\n",
    ),
    (
        b"<?php include ('a.php');",
        "refused: m.php:14: construct IncludePath\n",
    ),
    (
        b"<?php $a = include 'a.php';",
        "refused: m.php:11: construct IncludeExpr\n",
    ),
    (
        b"<?php function f() { include 'a.php'; }",
        "refused: m.php:21: construct IncludeInFunction\n",
    ),
    (
        b"<?php static $a;",
        "refused: m.php:6: construct StaticPlace\n",
    ),
    (
        b"<?php class A { function f() { static $a; } }",
        "refused: m.php:31: construct StaticPlace\n",
    ),
    (
        b"<?php define('A', 1);",
        "refused: m.php:6: construct LibraryName\n",
    ),
    (
        b"<?php extract($a);",
        "refused: m.php:6: construct LibraryName\n",
    ),
    (
        b"<?php echo $this;",
        "refused: m.php:11: construct ThisOutside\n",
    ),
    (
        b"<?php class A { function f() { $this = 1; } }",
        "refused: m.php:31: construct ThisWrite\n",
    ),
    (
        b"<?php echo self::A;",
        "refused: m.php:11: construct ClassContext\n",
    ),
    (
        b"<?php class A { function f() { parent::f(); } }",
        "refused: m.php:31: construct ClassContext\n",
    ),
    (b"<?php break;", "refused: m.php:6: construct BadBreak\n"),
    (
        b"<?php while (1) { break 2; }",
        "refused: m.php:18: construct BadBreak\n",
    ),
    (
        b"<?php while (1) { continue 0; }",
        "refused: m.php:18: construct BadBreak\n",
    ),
    (
        b"<?php function f($a, $a) {}",
        "refused: m.php:21: construct DuplicateName\n",
    ),
    (
        b"<?php class A { function f() {} function F() {} }",
        "refused: m.php:41: construct DuplicateName\n",
    ),
    (
        b"<?php unset($a->b);",
        "refused: m.php:12: construct UnsetProperty\n",
    ),
    (b"<?php echo 'a", "refused: m.php:11: lex UnclosedString\n"),
    (b"<?php echo \"a", "refused: m.php:11: lex UnclosedString\n"),
    (
        b"<?php echo 1; /* a",
        "refused: m.php:14: lex UnclosedComment\n",
    ),
    (
        b"<?php echo \"\\u{110000}\";",
        "refused: m.php:11: lex BadEscape\n",
    ),
    (b"<?php echo 08;", "refused: m.php:11: lex BadNumber\n"),
    (b"<?php echo 0x;", "refused: m.php:11: lex BadNumber\n"),
    (b"<?php echo 1; \x01", "refused: m.php:14: lex BadByte\n"),
    (b"<?php echo 1+2;", "refused: m.php:11: unlowered\n"),
    (b"<?php $x = 1;", "refused: m.php:6: unlowered\n"),
    (b"<?php echo 1; ; f();", "refused: m.php:16: unlowered\n"),
    (b"<?php echo 1, \"a$b\";", "refused: m.php:14: unlowered\n"),
    (b"<?php echo 1, (2);", "refused: m.php:14: unlowered\n"),
    (b"<?php echo 1, -2;", "refused: m.php:14: unlowered\n"),
    (b"a<?php if (1) { }", "refused: m.php:7: unlowered\n"),
    (b"<?php class A { }", "refused: m.php:6: unlowered\n"),
    (b"<?php function f() { }", "refused: m.php:6: unlowered\n"),
    (b"<?php include 'a.php';", "refused: m.php:6: unlowered\n"),
    (b"<?php return;", "refused: m.php:6: unlowered\n"),
    (b"<?php { echo 1; }", "refused: m.php:6: unlowered\n"),
    (
        b"<?php eval(1); echo 'a",
        "refused: m.php:20: lex UnclosedString\n",
    ),
    (
        b"<?php eval(1); echo 1.5;",
        "refused: m.php:20: construct FloatLiteral\n",
    ),
    (
        b"<?php echo 1 +; eval(1);",
        "refused: m.php:16: construct Eval\n",
    ),
    (
        b"<?php break; eval(1);",
        "refused: m.php:13: construct Eval\n",
    ),
    (
        b"<?php break; static $a;",
        "refused: m.php:6: construct BadBreak\n",
    ),
    (
        b"<?php static $a; break;",
        "refused: m.php:6: construct StaticPlace\n",
    ),
];
