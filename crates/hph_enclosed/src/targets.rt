//! Classes behind `new` and `instanceof`.

ghost use Rattle.hph_cursor.specs.Reads.{Reads, ReadsAs};
ghost use Rattle.hph_enclosed.specs.Nests.{Nests, passes};
ghost use Rattle.hph_fexpr.specs.Parser.{parse};
ghost use Rattle.std.specs.Prelude.{◌≡◌, [], length, IfOk};
ghost use Rattle.hph_ast.specs.declared.token.Kind.TheVariants as k;
ghost use Rattle.hph_ast.specs.declared.token.Mark.TheVariants as m;
ghost use Rattle.hph_ast.specs.declared.expr.Expr.TheVariants as e;
ghost use Rattle.hph_ast.specs.Places as places;
ghost use Rattle.hph_cursor.specs.Next.{class_by};
ghost use Rattle.hph_fexpr.specs.Classes as spec;

use crate::grammar::Grammar;
use crate::names::named_by_variable;
use crate::strings::variable_of;
use hph_ast::{ClassReference, Expr, Keyword, Kind, Mark, Step, Token};
use hph_cursor::nodes::{by_expression, with_steps};
use hph_cursor::{Cursor, ParseFault, class_place, on, span};
use hph_fexpr::Form;
use sqlite_items::{Boxed, Items};
use std::alloc::{AllocError, Global};

/// The class that a token names.
fn class_of(alloc: Global, token: &Token) -> Result<Option<Boxed<ClassReference>>, AllocError>
    ensures { IfOk result (λ r. r ≡ class_by token.now token.now.kind) }
{
    let at = on(token);
    match &token.kind {
        Kind::Name(name) => {
            let name = Items::from_slice(alloc, name.as_slice())?;
            Ok(Some(Boxed::new(alloc, ClassReference::ByName { at, name })?))
        }
        Kind::Keyword(Keyword::SelfClass) => {
            Ok(Some(Boxed::new(alloc, ClassReference::SelfClass { at })?))
        }
        Kind::Keyword(Keyword::Parent) => {
            Ok(Some(Boxed::new(alloc, ClassReference::Parent { at })?))
        }
        Kind::Keyword(Keyword::Static) => {
            Ok(Some(Boxed::new(alloc, ClassReference::Static { at })?))
        }
        _ => Ok(None),
    }
}

impl<F: Fn(Global, &mut Cursor<'_>, usize, Form) -> Result<Boxed<Expr>, ParseFault>> Grammar<F> {
    /// At `[`.
    #[tactic(auto, unfolding(hph_fexpr::specs::Classes::target_index))]
    fn target_index(&self, cursor: &mut Cursor<'_>) -> Result<Step, ParseFault>
        requires { Nests self.now.depth (F.pre self.now.nested) (F.post self.now.nested) }
        ensures { Reads (spec.target_index (parse self.now.depth) cursor.old) result cursor.new }
    {
        let opening = cursor.take()?;
        let key = self.level(cursor, 1)?;
        let close = cursor.expect(Mark::CloseBracket)?;
        Ok(Step::Index {
            at: span(on(opening), on(close)),
            key,
        })
    }

    /// At `->`.
    #[tactic(auto, unfolding(hph_fexpr::specs::Classes::target_property))]
    fn target_property(&self, cursor: &mut Cursor<'_>) -> Result<Step, ParseFault>
        requires { Nests self.now.depth (F.pre self.now.nested) (F.post self.now.nested) }
        ensures { Reads (spec.target_property (parse self.now.depth) cursor.old) result cursor.new }
    {
        let arrow = cursor.take()?;
        let (name, last) = self.member(cursor)?;
        Ok(Step::Property {
            at: span(on(arrow), last),
            name,
        })
    }

    /// At `::`.
    #[tactic(auto, unfolding(hph_fexpr::specs::Classes::target_static_property))]
    fn target_static_property(&self, cursor: &mut Cursor<'_>) -> Result<Step, ParseFault>
        ensures { Reads (spec.target_static_property (parse self.now.depth) cursor.old) result cursor.new }
    {
        let colons = cursor.take()?;
        let token = cursor.take()?;
        let Kind::Variable(name) = &token.kind else {
            return Err(cursor.refuse());
        };
        Ok(Step::Property {
            at: span(on(colons), on(token)),
            name: named_by_variable(self.alloc, token, name)?,
        })
    }

    /// All steps that follow.
    fn target_steps(&self, cursor: &mut Cursor<'_>) -> Result<Items<Step>, ParseFault>
        requires { Nests self.now.depth (F.pre self.now.nested) (F.post self.now.nested) }
        ensures { Reads (spec.target_steps_from (parse self.now.depth) (length cursor.old) [] cursor.old) result cursor.new }
    {
        let mut found = Items::new(self.alloc);
        for _turn in 0..cursor.left() {
            if cursor.sees(Mark::OpenBracket) {
                found.push(self.target_index(cursor)?)?;
            } else if cursor.sees(Mark::Arrow) {
                found.push(self.target_property(cursor)?)?;
            } else if cursor.sees(Mark::DoubleColon) {
                found.push(self.target_static_property(cursor)?)?;
            } else {
                return Ok(found);
            }
        }
        Ok(found)
    }

    /// An expression with all steps that follow, as a class.
    #[tactic(auto, unfolding(hph_fexpr::specs::Classes::by_steps))]
    fn by_steps(
        &self,
        cursor: &mut Cursor<'_>,
        base: Boxed<Expr>,
    ) -> Result<Boxed<ClassReference>, ParseFault>
        requires { Nests self.now.depth (F.pre self.now.nested) (F.post self.now.nested) }
        ensures { Reads (spec.by_steps (parse self.now.depth) base cursor.old) result cursor.new }
    {
        let steps = self.target_steps(cursor)?;
        let class = with_steps(self.alloc, base, steps)?;
        Ok(Boxed::new(self.alloc, by_expression(class))?)
    }

    fn by_variable(
        &self,
        cursor: &mut Cursor<'_>,
        token: &Token,
        name: &Items<u8>,
    ) -> Result<Boxed<ClassReference>, ParseFault>
        requires { Nests self.now.depth (F.pre self.now.nested) (F.post self.now.nested) }
        ensures { Reads (spec.by_steps (parse self.now.depth) (e.Variable (places.on token.now) name.now) cursor.old) result cursor.new }
    {
        let base = variable_of(self.alloc, token, name)?;
        self.by_steps(cursor, base)
    }

    fn by_parenthesis(
        &self,
        cursor: &mut Cursor<'_>,
        token: &Token,
    ) -> Result<Boxed<ClassReference>, ParseFault>
        requires { Nests self.now.depth (F.pre self.now.nested) (F.post self.now.nested) }
        ensures { Reads (spec.target_by (parse self.now.depth) token.now (k.Mark m.OpenParen) cursor.old) result cursor.new }
    {
        let class = self.parenthesis(cursor, token)?;
        Ok(Boxed::new(self.alloc, by_expression(class))?)
    }

    /// A static property as a class, at `::`.
    #[tactic(auto, unfolding(hph_fexpr::specs::Classes::static_target))]
    fn static_target(
        &self,
        cursor: &mut Cursor<'_>,
        class: Boxed<ClassReference>,
    ) -> Result<Boxed<ClassReference>, ParseFault>
        requires { Nests self.now.depth (F.pre self.now.nested) (F.post self.now.nested) }
        ensures { Reads (spec.static_target (parse self.now.depth) class cursor.old) result cursor.new }
    {
        cursor.expect(Mark::DoubleColon)?;
        let token = cursor.take()?;
        let Kind::Variable(name) = &token.kind else {
            return Err(cursor.refuse());
        };
        let name = Items::from_slice(self.alloc, name.as_slice())?;
        let base = Boxed::new(
            self.alloc,
            Expr::StaticProperty {
                at: span(class_place(class.get()), on(token)),
                class,
                name,
            },
        )?;
        self.by_steps(cursor, base)
    }

    fn named_class(
        &self,
        cursor: &mut Cursor<'_>,
        class: Boxed<ClassReference>,
    ) -> Result<Boxed<ClassReference>, ParseFault>
        requires { Nests self.now.depth (F.pre self.now.nested) (F.post self.now.nested) }
        ensures { Reads (spec.named_class (parse self.now.depth) class cursor.old) result cursor.new }
    {
        if cursor.sees(Mark::DoubleColon) {
            return self.static_target(cursor, class);
        }
        Ok(class)
    }

    /// The class behind `new` or `instanceof`.
    #[tactic(auto, unfolding(hph_fexpr::specs::Classes::class_reference))]
    pub fn class_reference(
        &self,
        cursor: &mut Cursor<'_>,
    ) -> Result<Boxed<ClassReference>, ParseFault>
        requires { Nests self.now.depth (F.pre self.now.nested) (F.post self.now.nested) }
        ensures { Reads (spec.class_reference (parse self.now.depth) cursor.old) result cursor.new }
    {
        let token = cursor.take()?;
        if let Some(class) = class_of(self.alloc, token)? {
            return self.named_class(cursor, class);
        }
        match &token.kind {
            Kind::Variable(name) => self.by_variable(cursor, token, name),
            Kind::Mark(Mark::OpenParen) => self.by_parenthesis(cursor, token),
            _ => Err(cursor.refuse()),
        }
    }
}
