//! Classes and their members (PHP manual, Classes and Objects).

ghost use Rattle.std.specs.Prelude.{◌≡◌};
ghost use Rattle.hph_ast.specs.declared.class.Class.{roll-Class};
ghost use Rattle.hph_ast.specs.declared.token.Mark.TheVariants.{CloseBrace};
ghost use Rattle.hph_cursor.specs.Reads.{Reads, ReadsAs};
ghost use Rattle.hph_cursor.specs.Steps as steps;
ghost use Rattle.hph_cursor.specs.Steps.{and_then, take_token};
ghost use Rattle.hph_fstmt.specs.Parser as spec;
ghost use Rattle.hph_fstmt.specs.Repeats as repeats;
ghost use Rattle.hph_fstmt.specs.Statements as statements;
ghost use Rattle.hph_declare.specs.Braces.{braced, closed};
ghost use Rattle.hph_declare.specs.Nests.{Nests};

use crate::grammar::Grammar;
use hph_ast::{At, Class, Identifier, Keyword, Mark, Member, Modifiers, Statement, Token};
use hph_cursor::{Cursor, ParseFault, on, span};
use hph_parts::Expressions;
use hph_parts::boxes::boxed;
use hph_parts::ends::ends_braces;
use hph_parts::places::function_place;
use hph_parts::words::{here, name, sees_keyword};
use hph_repeats::{Ends, Rule, many};
use hph_signature::modifiers::{has_modifier, modifiers};
use hph_signature::types::maybe_type;
use sqlite_items::{Boxed, Items};
use std::alloc::Global;

/// The name of the parent class, if there is one.
#[tactic(auto, unfolding(hph_fstmt::specs::Statements::extends))]
fn extends(alloc: Global, cursor: &mut Cursor<'_>) -> Result<Option<Identifier>, ParseFault>
    ensures { Reads (statements.extends cursor.old) result cursor.new }
{
    if !sees_keyword(cursor, Keyword::Extends) {
        return Ok(None);
    }
    cursor.take()?;
    let parent = name(alloc, cursor)?;
    Ok(Some(parent))
}

/// What stands before the members of a class.
#[derive(Drop)]
pub struct ClassHead {
    pub name: Identifier,
    pub parent: Option<Identifier>,
}

fn class_of(at: At, head: ClassHead, members: Items<Member>) -> Class
    ensures { result ≡ roll-Class (record { at = at; name = head.name; parent = head.parent; members = members }) }
{
    let ClassHead { name, parent } = head;
    Class {
        at,
        name,
        parent,
        members,
    }
}

/// The rule of a member of a class.
#[derive(Drop)]
struct MemberRule<'a, E, S> {
    grammar: &'a Grammar<E, S>,
}

impl<
    E: Expressions + Copy,
    S: Fn(Global, E, &mut Cursor<'_>, usize) -> Result<Statement, ParseFault>,
> Rule for MemberRule<'_, E, S> {
    ghost use Rattle.hph_declare.specs.Nests.{Nests};
    ghost use Rattle.hph_fstmt.specs.Parser as spec;
    ghost use Rattle.hph_fstmt.specs.Statements as statements;

    type Node = Member;

    ghost can_read = { λ r. Nests r.grammar.now.depth (S.pre r.grammar.now.statement) (S.post r.grammar.now.statement) };

    ghost grammar = { λ r. statements.class_member spec.expressions (spec.nested r.grammar.now.depth) };

    fn read(&self, cursor: &mut Cursor<'_>) -> Result<Member, ParseFault> {
        self.grammar.member(cursor)
    }
}

impl<
    E: Expressions + Copy,
    S: Fn(Global, E, &mut Cursor<'_>, usize) -> Result<Statement, ParseFault>,
> Ends for MemberRule<'_, E, S> {
    ghost use Rattle.hph_ast.specs.declared.token.Mark.TheVariants.{CloseBrace};
    ghost use Rattle.hph_cursor.specs.Steps as steps;

    ghost ends = { steps.is_mark CloseBrace };

    fn at_end(&self, cursor: &Cursor<'_>) -> bool {
        ends_braces(cursor)
    }
}

impl<
    E: Expressions + Copy,
    S: Fn(Global, E, &mut Cursor<'_>, usize) -> Result<Statement, ParseFault>,
> Grammar<E, S> {
    /// Behind `const`.
    #[tactic(auto, unfolding(hph_fstmt::specs::Statements::class_constants))]
    fn class_constants(
        &self,
        cursor: &mut Cursor<'_>,
        at: At,
        modifiers: Modifiers,
    ) -> Result<Member, ParseFault>
        requires { Nests self.now.depth (S.pre self.now.statement) (S.post self.now.statement) }
        ensures { Reads (statements.class_constants spec.expressions (spec.nested self.now.depth) at modifiers cursor.old) result cursor.new }
    {
        let (items, close) = self.parts.constant_items(cursor)?;
        Ok(Member::Constants {
            at: span(at, on(close)),
            modifiers,
            items,
        })
    }

    #[tactic(auto, unfolding(hph_fstmt::specs::Statements::properties))]
    fn properties(
        &self,
        cursor: &mut Cursor<'_>,
        at: At,
        modifiers: Modifiers,
    ) -> Result<Member, ParseFault>
        requires { Nests self.now.depth (S.pre self.now.statement) (S.post self.now.statement) }
        ensures { Reads (statements.properties spec.expressions (spec.nested self.now.depth) at modifiers cursor.old) result cursor.new }
    {
        let ty = maybe_type(self.parts.alloc, cursor)?;
        let (items, close) = self.parts.property_items(cursor)?;
        Ok(Member::Properties {
            at: span(at, on(close)),
            modifiers,
            ty,
            items,
        })
    }

    /// At `function`.
    #[tactic(auto, unfolding(hph_fstmt::specs::Statements::method))]
    fn method(
        &self,
        cursor: &mut Cursor<'_>,
        at: At,
        modifiers: Modifiers,
    ) -> Result<Member, ParseFault>
        requires { Nests self.now.depth (S.pre self.now.statement) (S.post self.now.statement) }
        ensures { Reads (statements.method spec.expressions (spec.nested self.now.depth) at modifiers cursor.old) result cursor.new }
    {
        let function = self.function(cursor)?;
        Ok(Member::Method {
            at: span(at, function_place(function.get())),
            modifiers,
            function,
        })
    }

    /// Behind the modifiers: constants are without `static`, and properties have a modifier.
    #[tactic(auto, unfolding(hph_fstmt::specs::Statements::member_of))]
    fn member_of(
        &self,
        cursor: &mut Cursor<'_>,
        at: At,
        modifiers: Modifiers,
    ) -> Result<Member, ParseFault>
        requires { Nests self.now.depth (S.pre self.now.statement) (S.post self.now.statement) }
        ensures { Reads (statements.member_of spec.expressions (spec.nested self.now.depth) at modifiers cursor.old) result cursor.new }
    {
        if sees_keyword(cursor, Keyword::Const) {
            if modifiers.is_static {
                return Err(cursor.refuse());
            }
            cursor.take()?;
            return self.class_constants(cursor, at, modifiers);
        }
        if sees_keyword(cursor, Keyword::Function) {
            return self.method(cursor, at, modifiers);
        }
        if !has_modifier(modifiers) {
            return Err(cursor.refuse());
        }
        self.properties(cursor, at, modifiers)
    }

    #[tactic(auto, unfolding(hph_fstmt::specs::Statements::member_from))]
    fn member_from(&self, cursor: &mut Cursor<'_>, at: At) -> Result<Member, ParseFault>
        requires { Nests self.now.depth (S.pre self.now.statement) (S.post self.now.statement) }
        ensures { Reads (statements.member_from spec.expressions (spec.nested self.now.depth) at cursor.old) result cursor.new }
    {
        let modifiers = modifiers(cursor)?;
        self.member_of(cursor, at, modifiers)
    }

    #[tactic(auto, unfolding(hph_fstmt::specs::Statements::class_member))]
    fn member(&self, cursor: &mut Cursor<'_>) -> Result<Member, ParseFault>
        requires { Nests self.now.depth (S.pre self.now.statement) (S.post self.now.statement) }
        ensures { Reads (statements.class_member spec.expressions (spec.nested self.now.depth) cursor.old) result cursor.new }
    {
        let at = here(cursor)?;
        self.member_from(cursor, at)
    }

    /// Members and the `}` behind them.
    fn closed_members<'a>(
        &self,
        cursor: &mut Cursor<'a>,
    ) -> Result<(Items<Member>, &'a Token), ParseFault>
        requires { Nests self.now.depth (S.pre self.now.statement) (S.post self.now.statement) }
        ensures { ReadsAs (λ r. (r.0, r.1.now)) (closed (repeats.many (steps.is_mark CloseBrace) (statements.class_member spec.expressions (spec.nested self.now.depth))) cursor.old) result cursor.new }
    {
        let members = many(self.parts.alloc, &MemberRule { grammar: self }, cursor)?;
        let close = cursor.expect(Mark::CloseBrace)?;
        Ok((members, close))
    }

    /// Members in braces, and the token that closes.
    fn braced_members<'a>(
        &self,
        cursor: &mut Cursor<'a>,
    ) -> Result<(Items<Member>, &'a Token), ParseFault>
        requires { Nests self.now.depth (S.pre self.now.statement) (S.post self.now.statement) }
        ensures { ReadsAs (λ r. (r.0, r.1.now)) (braced (repeats.many (steps.is_mark CloseBrace) (statements.class_member spec.expressions (spec.nested self.now.depth))) cursor.old) result cursor.new }
    {
        cursor.expect(Mark::OpenBrace)?;
        self.closed_members(cursor)
    }

    #[tactic(auto, using(crate::proofs::Braces::classed))]
    fn class_body(
        &self,
        cursor: &mut Cursor<'_>,
        token: &Token,
        head: ClassHead,
    ) -> Result<Boxed<Class>, ParseFault>
        requires { Nests self.now.depth (S.pre self.now.statement) (S.post self.now.statement) }
        ensures { Reads (statements.class_body spec.expressions (spec.nested self.now.depth) token.now head.name head.parent cursor.old) result cursor.new }
    {
        let (members, close) = self.braced_members(cursor)?;
        let at = span(on(token), on(close));
        boxed(self.parts.alloc, class_of(at, head, members))
    }

    /// At `class`.
    #[tactic(auto, unfolding(hph_fstmt::specs::Statements::class_from))]
    pub fn class(&self, cursor: &mut Cursor<'_>) -> Result<Boxed<Class>, ParseFault>
        requires { Nests self.now.depth (S.pre self.now.statement) (S.post self.now.statement) }
        ensures { Reads (and_then (take_token cursor.old) (statements.class_from spec.expressions (spec.nested self.now.depth))) result cursor.new }
    {
        let token = cursor.take()?;
        let name = name(self.parts.alloc, cursor)?;
        let parent = extends(self.parts.alloc, cursor)?;
        self.class_body(cursor, token, ClassHead { name, parent })
    }
}
