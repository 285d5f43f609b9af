//! Primaries: what an expression is without operators and without steps.

ghost use Rattle.hph_cursor.specs.Reads.{Reads, ReadsAs};
ghost use Rattle.hph_enclosed.specs.Nests.{Nests, passes};
ghost use Rattle.hph_fexpr.specs.Parser.{parse};
ghost use Rattle.hph_fexpr.specs.Classes as classes;
ghost use Rattle.hph_fexpr.specs.Primaries as spec;

use crate::chains::Chains;
use hph_ast::{ArrayForm, ClassReference, Expr, Keyword, Kind, Mark, Token};
use hph_cursor::nodes::{empty_of, exit_with_of};
use hph_cursor::{Cursor, ParseFault, class_place, on, span};
use hph_enclosed::{PathTest, variable_of};
use hph_fexpr::{Elements, Form};
use sqlite_items::{Boxed, Items};
use std::alloc::Global;

/// An array of elements of which none stands in a destructuring alone.
pub fn array_of(
    alloc: Global,
    cursor: &Cursor<'_>,
    opening: &Token,
    form: ArrayForm,
    found: Elements,
) -> Result<Boxed<Expr>, ParseFault>
    ensures { Reads (spec.array_of opening.now form found cursor.now) result cursor.now }
{
    if found.targets {
        return Err(cursor.refuse());
    }
    Ok(Boxed::new(
        alloc,
        Expr::Array {
            at: span(on(opening), found.close),
            form,
            items: found.items,
        },
    )?)
}

impl<F: Fn(Global, &mut Cursor<'_>, usize, Form) -> Result<Boxed<Expr>, ParseFault>> Chains<F> {
    /// Behind `[`.
    #[tactic(auto, unfolding(hph_fexpr::specs::Primaries::short_array))]
    fn short_array(
        &self,
        cursor: &mut Cursor<'_>,
        opening: &Token,
    ) -> Result<Boxed<Expr>, ParseFault>
        requires { Nests self.now.parts.depth (F.pre self.now.parts.nested) (F.post self.now.parts.nested) }
        ensures { Reads (spec.short_array (parse self.now.parts.depth) opening.now cursor.old) result cursor.new }
    {
        let found = self.parts.elements(cursor, Mark::CloseBracket)?;
        array_of(self.parts.alloc, cursor, opening, ArrayForm::Short, found)
    }

    /// Behind `array`.
    #[tactic(auto, unfolding(hph_fexpr::specs::Primaries::long_array))]
    fn long_array(&self, cursor: &mut Cursor<'_>, token: &Token) -> Result<Boxed<Expr>, ParseFault>
        requires { Nests self.now.parts.depth (F.pre self.now.parts.nested) (F.post self.now.parts.nested) }
        ensures { Reads (spec.long_array (parse self.now.parts.depth) token.now cursor.old) result cursor.new }
    {
        cursor.expect(Mark::OpenParen)?;
        let found = self.parts.elements(cursor, Mark::CloseParen)?;
        array_of(self.parts.alloc, cursor, token, ArrayForm::Long, found)
    }

    /// At `(`.
    #[tactic(auto, unfolding(hph_fexpr::specs::Primaries::call))]
    fn call(
        &self,
        cursor: &mut Cursor<'_>,
        token: &Token,
        name: &Items<u8>,
    ) -> Result<Boxed<Expr>, ParseFault>
        requires { Nests self.now.parts.depth (F.pre self.now.parts.nested) (F.post self.now.parts.nested) }
        ensures { Reads (spec.call (parse self.now.parts.depth) token.now name.now cursor.old) result cursor.new }
    {
        cursor.take()?;
        let (arguments, last) = self.parts.arguments(cursor)?;
        let name = Items::from_slice(self.parts.alloc, name.as_slice())?;
        Ok(Boxed::new(
            self.parts.alloc,
            Expr::Call {
                at: span(on(token), last),
                name,
                arguments,
            },
        )?)
    }

    /// Behind a name.
    #[tactic(auto, unfolding(hph_fexpr::specs::Primaries::named))]
    fn named(
        &self,
        cursor: &mut Cursor<'_>,
        token: &Token,
        name: &Items<u8>,
    ) -> Result<Boxed<Expr>, ParseFault>
        requires { Nests self.now.parts.depth (F.pre self.now.parts.nested) (F.post self.now.parts.nested) }
        ensures { Reads (spec.named (parse self.now.parts.depth) token.now name.now cursor.old) result cursor.new }
    {
        if cursor.sees(Mark::OpenParen) {
            return self.call(cursor, token, name);
        }
        let at = on(token);
        let name = Items::from_slice(self.parts.alloc, name.as_slice())?;
        if cursor.sees(Mark::DoubleColon) {
            let class = Boxed::new(self.parts.alloc, ClassReference::ByName { at, name })?;
            return self.scoped(cursor, class);
        }
        Ok(Boxed::new(self.parts.alloc, Expr::Constant { at, name })?)
    }

    /// Behind `new`.
    #[tactic(auto, unfolding(hph_fexpr::specs::Primaries::new))]
    fn new(&self, cursor: &mut Cursor<'_>, token: &Token) -> Result<Boxed<Expr>, ParseFault>
        requires { Nests self.now.parts.depth (F.pre self.now.parts.nested) (F.post self.now.parts.nested) }
        ensures { Reads (spec.new (parse self.now.parts.depth) token.now cursor.old) result cursor.new }
    {
        let class = self.parts.class_reference(cursor)?;
        let (arguments, last) = self
            .parts
            .maybe_arguments(cursor, class_place(class.get()))?;
        Ok(Boxed::new(
            self.parts.alloc,
            Expr::New {
                at: span(on(token), last),
                class,
                arguments,
            },
        )?)
    }

    /// Behind `isset`.
    #[tactic(auto, unfolding(hph_fexpr::specs::Primaries::isset))]
    fn isset(&self, cursor: &mut Cursor<'_>, token: &Token) -> Result<Boxed<Expr>, ParseFault>
        requires { Nests self.now.parts.depth (F.pre self.now.parts.nested) (F.post self.now.parts.nested) }
        ensures { Reads (spec.isset (parse self.now.parts.depth) token.now cursor.old) result cursor.new }
    {
        cursor.expect(Mark::OpenParen)?;
        let (paths, last) = self.parts.paths(cursor, PathTest::AnyPath)?;
        Ok(Boxed::new(
            self.parts.alloc,
            Expr::Isset {
                at: span(on(token), last),
                paths,
            },
        )?)
    }

    /// Behind `empty`.
    #[tactic(auto, unfolding(hph_fexpr::specs::Primaries::empty))]
    fn empty(&self, cursor: &mut Cursor<'_>, token: &Token) -> Result<Boxed<Expr>, ParseFault>
        requires { Nests self.now.parts.depth (F.pre self.now.parts.nested) (F.post self.now.parts.nested) }
        ensures { Reads (spec.empty (parse self.now.parts.depth) token.now cursor.old) result cursor.new }
    {
        cursor.expect(Mark::OpenParen)?;
        let operand = self.parts.level(cursor, 1)?;
        let close = cursor.expect(Mark::CloseParen)?;
        Ok(empty_of(self.parts.alloc, span(on(token), on(close)), operand)?)
    }

    /// Behind `exit` and `(`.
    #[tactic(auto, unfolding(hph_fexpr::specs::Primaries::exit_with))]
    fn exit_with(&self, cursor: &mut Cursor<'_>, token: &Token) -> Result<Boxed<Expr>, ParseFault>
        requires { Nests self.now.parts.depth (F.pre self.now.parts.nested) (F.post self.now.parts.nested) }
        ensures { Reads (spec.exit_with (parse self.now.parts.depth) token.now cursor.old) result cursor.new }
    {
        if cursor.sees(Mark::CloseParen) {
            let close = cursor.take()?;
            return Ok(Boxed::new(
                self.parts.alloc,
                Expr::Exit {
                    at: span(on(token), on(close)),
                },
            )?);
        }
        let operand = self.parts.level(cursor, 1)?;
        let close = cursor.expect(Mark::CloseParen)?;
        Ok(exit_with_of(self.parts.alloc, span(on(token), on(close)), operand)?)
    }

    /// Behind `exit`.
    #[tactic(auto, unfolding(hph_fexpr::specs::Primaries::exit))]
    fn exit(&self, cursor: &mut Cursor<'_>, token: &Token) -> Result<Boxed<Expr>, ParseFault>
        requires { Nests self.now.parts.depth (F.pre self.now.parts.nested) (F.post self.now.parts.nested) }
        ensures { Reads (spec.exit (parse self.now.parts.depth) token.now cursor.old) result cursor.new }
    {
        if !cursor.sees(Mark::OpenParen) {
            return Ok(Boxed::new(self.parts.alloc, Expr::Exit { at: on(token) })?);
        }
        cursor.take()?;
        self.exit_with(cursor, token)
    }

    /// Behind the class.
    fn scoped_of(
        &self,
        cursor: &mut Cursor<'_>,
        class: ClassReference,
    ) -> Result<Boxed<Expr>, ParseFault>
        requires { Nests self.now.parts.depth (F.pre self.now.parts.nested) (F.post self.now.parts.nested) }
        ensures { Reads (classes.scoped (parse self.now.parts.depth) class cursor.old) result cursor.new }
    {
        let class = Boxed::new(self.parts.alloc, class)?;
        self.scoped(cursor, class)
    }

    /// Behind a keyword.
    fn keyword(
        &self,
        cursor: &mut Cursor<'_>,
        token: &Token,
        keyword: Keyword,
    ) -> Result<Boxed<Expr>, ParseFault>
        requires { Nests self.now.parts.depth (F.pre self.now.parts.nested) (F.post self.now.parts.nested) }
        ensures { Reads (spec.keyword_by (parse self.now.parts.depth) token.now keyword cursor.old) result cursor.new }
    {
        let at = on(token);
        match keyword {
            Keyword::MagicDir => Ok(Boxed::new(self.parts.alloc, Expr::Directory { at })?),
            Keyword::Array => self.long_array(cursor, token),
            Keyword::New => self.new(cursor, token),
            Keyword::Isset => self.isset(cursor, token),
            Keyword::Empty => self.empty(cursor, token),
            Keyword::Exit | Keyword::Die => self.exit(cursor, token),
            Keyword::SelfClass => self.scoped_of(cursor, ClassReference::SelfClass { at }),
            Keyword::Parent => self.scoped_of(cursor, ClassReference::Parent { at }),
            Keyword::Static => self.scoped_of(cursor, ClassReference::Static { at }),
            _ => Err(cursor.refuse()),
        }
    }

    /// What an expression is without operators and without steps.
    #[tactic(auto, unfolding(hph_fexpr::specs::Primaries::primary))]
    pub fn primary(&self, cursor: &mut Cursor<'_>) -> Result<Boxed<Expr>, ParseFault>
        requires { Nests self.now.parts.depth (F.pre self.now.parts.nested) (F.post self.now.parts.nested) }
        ensures { Reads (spec.primary (parse self.now.parts.depth) cursor.old) result cursor.new }
    {
        let token = cursor.take()?;
        match &token.kind {
            Kind::Int(value) => Ok(Boxed::new(
                self.parts.alloc,
                Expr::Int {
                    at: on(token),
                    value: *value,
                },
            )?),
            Kind::Text(bytes) => {
                let bytes = Items::from_slice(self.parts.alloc, bytes.as_slice())?;
                Ok(Boxed::new(
                    self.parts.alloc,
                    Expr::Text {
                        at: on(token),
                        bytes,
                    },
                )?)
            }
            Kind::TextHead(bytes) => self.parts.interpolated(cursor, token, bytes),
            Kind::Variable(name) => Ok(variable_of(self.parts.alloc, token, name)?),
            Kind::Name(name) => self.named(cursor, token, name),
            Kind::Keyword(keyword) => self.keyword(cursor, token, *keyword),
            Kind::Mark(Mark::OpenBracket) => self.short_array(cursor, token),
            Kind::Mark(Mark::OpenParen) => self.parts.parenthesis(cursor, token),
            _ => Err(cursor.refuse()),
        }
    }
}
