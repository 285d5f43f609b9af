//! Steps, calls and members behind a primary.

ghost use Rattle.hph_cursor.specs.Reads.{Reads, ReadsAs};
ghost use Rattle.hph_enclosed.specs.Nests.{Nests, passes};
ghost use Rattle.hph_fexpr.specs.Parser.{parse};
ghost use Rattle.std.specs.Prelude.{Some, None};
ghost use Rattle.hph_fexpr.specs.Postfix as spec;

use crate::chains::Chains;
use hph_ast::{Expr, Mark, MemberName, Step, Token};
use hph_cursor::nodes::{by_expression, dynamic_call_of, method_call_of, with_steps};
use hph_cursor::{Cursor, ParseFault, is_callable, is_class_expression, is_read, on, span};
use hph_fexpr::{Form, Turn};
use sqlite_items::{Boxed, Items};
use std::alloc::Global;

impl<F: Fn(Global, &mut Cursor<'_>, usize, Form) -> Result<Boxed<Expr>, ParseFault>> Chains<F> {
    /// Behind `[`.
    #[tactic(auto, unfolding(hph_fexpr::specs::Postfix::index))]
    fn index(&self, cursor: &mut Cursor<'_>, opening: &Token) -> Result<Step, ParseFault>
        requires { Nests self.now.parts.depth (F.pre self.now.parts.nested) (F.post self.now.parts.nested) }
        ensures { Reads (spec.index (parse self.now.parts.depth) opening.now cursor.old) result cursor.new }
    {
        if cursor.sees(Mark::CloseBracket) {
            let close = cursor.take()?;
            return Ok(Step::Append {
                at: span(on(opening), on(close)),
            });
        }
        let key = self.parts.level(cursor, 1)?;
        let close = cursor.expect(Mark::CloseBracket)?;
        Ok(Step::Index {
            at: span(on(opening), on(close)),
            key,
        })
    }

    /// Indices and properties, and the name of a method where its arguments follow.
    fn steps(
        &self,
        cursor: &mut Cursor<'_>,
    ) -> Result<(Items<Step>, Option<Boxed<MemberName>>), ParseFault>
        requires { Nests self.now.parts.depth (F.pre self.now.parts.nested) (F.post self.now.parts.nested) }
        ensures { Reads (spec.steps (parse self.now.parts.depth) cursor.old) result cursor.new }
    {
        let mut found = Items::new(self.parts.alloc);
        for _turn in 0..cursor.left() {
            if cursor.sees(Mark::OpenBracket) {
                let opening = cursor.take()?;
                found.push(self.index(cursor, opening)?)?;
            } else if cursor.sees(Mark::Arrow) {
                let arrow = cursor.take()?;
                let (name, last) = self.parts.member(cursor)?;
                if cursor.sees(Mark::OpenParen) {
                    return Ok((found, Some(name)));
                }
                found.push(Step::Property {
                    at: span(on(arrow), last),
                    name,
                })?;
            } else {
                return Ok((found, None));
            }
        }
        Ok((found, None))
    }

    /// At `(`.
    #[tactic(auto, unfolding(hph_fexpr::specs::Postfix::method_call))]
    fn method_call(
        &self,
        cursor: &mut Cursor<'_>,
        object: Boxed<Expr>,
        name: Boxed<MemberName>,
    ) -> Result<Boxed<Expr>, ParseFault>
        requires { Nests self.now.parts.depth (F.pre self.now.parts.nested) (F.post self.now.parts.nested) }
        ensures { Reads (spec.method_call (parse self.now.parts.depth) object name cursor.old) result cursor.new }
    {
        cursor.take()?;
        let (arguments, last) = self.parts.arguments(cursor)?;
        Ok(method_call_of(self.parts.alloc, object, name, arguments, last)?)
    }

    /// At `(`.
    #[tactic(auto, unfolding(hph_fexpr::specs::Postfix::dynamic_call))]
    fn dynamic_call(
        &self,
        cursor: &mut Cursor<'_>,
        callee: Boxed<Expr>,
    ) -> Result<Boxed<Expr>, ParseFault>
        requires { Nests self.now.parts.depth (F.pre self.now.parts.nested) (F.post self.now.parts.nested) }
        ensures { Reads (spec.dynamic_call (parse self.now.parts.depth) callee cursor.old) result cursor.new }
    {
        cursor.take()?;
        let (arguments, last) = self.parts.arguments(cursor)?;
        Ok(dynamic_call_of(self.parts.alloc, callee, arguments, last)?)
    }

    #[tactic(auto, unfolding(hph_fexpr::specs::Postfix::turn))]
    fn method_turn(
        &self,
        cursor: &mut Cursor<'_>,
        object: Boxed<Expr>,
        name: Boxed<MemberName>,
    ) -> Result<Turn, ParseFault>
        requires { Nests self.now.parts.depth (F.pre self.now.parts.nested) (F.post self.now.parts.nested) }
        ensures { Reads (spec.turn (parse self.now.parts.depth) object (Some name) cursor.old) result cursor.new }
    {
        if !is_read(object.get()) {
            return Err(cursor.refuse());
        }
        Ok(Turn::Longer(self.method_call(cursor, object, name)?))
    }

    #[tactic(auto, unfolding(hph_fexpr::specs::Postfix::turn))]
    fn call_turn(&self, cursor: &mut Cursor<'_>, found: Boxed<Expr>) -> Result<Turn, ParseFault>
        requires { Nests self.now.parts.depth (F.pre self.now.parts.nested) (F.post self.now.parts.nested) }
        ensures { Reads (spec.turn (parse self.now.parts.depth) found None cursor.old) result cursor.new }
    {
        if cursor.sees(Mark::OpenParen) && (is_read(found.get()) && is_callable(found.get())) {
            return Ok(Turn::Longer(self.dynamic_call(cursor, found)?));
        }
        if cursor.sees(Mark::DoubleColon)
            && (is_read(found.get()) && is_class_expression(found.get()))
        {
            let class = Boxed::new(self.parts.alloc, by_expression(found))?;
            return Ok(Turn::Longer(self.scoped(cursor, class)?));
        }
        Ok(Turn::Whole(found))
    }

    /// A call or a member behind an expression with its steps.
    fn turn(
        &self,
        cursor: &mut Cursor<'_>,
        found: Boxed<Expr>,
        method: Option<Boxed<MemberName>>,
    ) -> Result<Turn, ParseFault>
        requires { Nests self.now.parts.depth (F.pre self.now.parts.nested) (F.post self.now.parts.nested) }
        ensures { Reads (spec.turn (parse self.now.parts.depth) found method cursor.old) result cursor.new }
    {
        match method {
            Some(name) => self.method_turn(cursor, found, name),
            None => self.call_turn(cursor, found),
        }
    }

    #[tactic(auto, unfolding(hph_fexpr::specs::Postfix::one_turn))]
    fn one_turn(&self, cursor: &mut Cursor<'_>, found: Boxed<Expr>) -> Result<Turn, ParseFault>
        requires { Nests self.now.parts.depth (F.pre self.now.parts.nested) (F.post self.now.parts.nested) }
        ensures { Reads (spec.one_turn (parse self.now.parts.depth) found cursor.old) result cursor.new }
    {
        let (steps, method) = self.steps(cursor)?;
        let found = with_steps(self.parts.alloc, found, steps)?;
        self.turn(cursor, found, method)
    }

    /// Steps behind as many calls and members as may nest.
    #[tactic(auto, unfolding(hph_fexpr::specs::Postfix::goes_on_from))]
    fn last_turn(
        &self,
        cursor: &mut Cursor<'_>,
        found: Boxed<Expr>,
    ) -> Result<Boxed<Expr>, ParseFault>
        requires { Nests self.now.parts.depth (F.pre self.now.parts.nested) (F.post self.now.parts.nested) }
        ensures { Reads (spec.goes_on_from (parse self.now.parts.depth) 1 found cursor.old) result cursor.new }
    {
        match self.one_turn(cursor, found)? {
            Turn::Longer(_) => Err(cursor.refuse()),
            Turn::Whole(whole) => Ok(whole),
        }
    }

    /// Steps, calls and members, as long as there are any, of which no more may stand in a row than parts may nest.
    pub fn goes_on(
        &self,
        cursor: &mut Cursor<'_>,
        mut found: Boxed<Expr>,
    ) -> Result<Boxed<Expr>, ParseFault>
        requires { Nests self.now.parts.depth (F.pre self.now.parts.nested) (F.post self.now.parts.nested) }
        ensures { Reads (spec.goes_on (parse self.now.parts.depth) self.now.parts.depth found cursor.old) result cursor.new }
    {
        for _turn in 0..self.parts.depth {
            match self.one_turn(cursor, found)? {
                Turn::Longer(longer) => found = longer,
                Turn::Whole(whole) => return Ok(whole),
            }
        }
        self.last_turn(cursor, found)
    }

    /// An expression without operators.
    #[tactic(auto, unfolding(hph_fexpr::specs::Postfix::postfix))]
    pub fn postfix(&self, cursor: &mut Cursor<'_>) -> Result<Boxed<Expr>, ParseFault>
        requires { Nests self.now.parts.depth (F.pre self.now.parts.nested) (F.post self.now.parts.nested) }
        ensures { Reads (spec.postfix (parse self.now.parts.depth) self.now.parts.depth cursor.old) result cursor.new }
    {
        let found = self.primary(cursor)?;
        self.goes_on(cursor, found)
    }
}
