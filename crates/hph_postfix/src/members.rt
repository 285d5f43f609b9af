//! Members of classes: PHP manual, Scope Resolution Operator.

ghost use Rattle.hph_cursor.specs.Reads.{Reads, ReadsAs};
ghost use Rattle.hph_enclosed.specs.Nests.{Nests, passes};
ghost use Rattle.hph_fexpr.specs.Parser.{parse};
ghost use Rattle.std.specs.Prelude.{◌≡◌, IfOk};
ghost use Rattle.hph_ast.specs.declared.token.Kind.TheVariants as k;
ghost use Rattle.hph_fexpr.specs.Classes as spec;

use crate::chains::Chains;
use hph_ast::{ClassReference, Expr, Kind, Mark, MemberName, Token};
use hph_cursor::{Cursor, ParseFault, class_place, is_class, on, span};
use hph_enclosed::{named_by_variable, named_of};
use hph_fexpr::Form;
use sqlite_items::{Boxed, Items};
use std::alloc::{AllocError, Global};

/// `C::NAME`, or `C::class`.
fn constant_of(
    alloc: Global,
    class: Boxed<ClassReference>,
    colons: &Token,
    token: &Token,
    name: &Items<u8>,
) -> Result<Boxed<Expr>, AllocError>
    ensures { IfOk result (λ r. r ≡ spec.constant_of class colons.now token.now name.now) }
{
    let at = span(class_place(class.get()), on(token));
    if is_class(name.as_slice()) {
        return Boxed::new(
            alloc,
            Expr::ClassName {
                at,
                class,
                colons: colons.start,
            },
        );
    }
    let name = Items::from_slice(alloc, name.as_slice())?;
    Boxed::new(alloc, Expr::ClassConstant { at, class, name })
}

impl<F: Fn(Global, &mut Cursor<'_>, usize, Form) -> Result<Boxed<Expr>, ParseFault>> Chains<F> {
    /// At `(`.
    #[tactic(auto, unfolding(hph_fexpr::specs::Classes::static_call))]
    fn static_call(
        &self,
        cursor: &mut Cursor<'_>,
        class: Boxed<ClassReference>,
        name: Boxed<MemberName>,
    ) -> Result<Boxed<Expr>, ParseFault>
        requires { Nests self.now.parts.depth (F.pre self.now.parts.nested) (F.post self.now.parts.nested) }
        ensures { Reads (spec.static_call (parse self.now.parts.depth) class name cursor.old) result cursor.new }
    {
        cursor.expect(Mark::OpenParen)?;
        let (arguments, last) = self.parts.arguments(cursor)?;
        Ok(Boxed::new(
            self.parts.alloc,
            Expr::StaticCall {
                at: span(class_place(class.get()), last),
                class,
                name,
                arguments,
            },
        )?)
    }

    fn scoped_name(
        &self,
        cursor: &mut Cursor<'_>,
        class: Boxed<ClassReference>,
        colons: &Token,
        token: &Token,
        name: &Items<u8>,
    ) -> Result<Boxed<Expr>, ParseFault>
        requires { Nests self.now.parts.depth (F.pre self.now.parts.nested) (F.post self.now.parts.nested) }
        ensures { Reads (spec.scoped_by (parse self.now.parts.depth) class colons.now token.now (k.Name name.now) cursor.old) result cursor.new }
    {
        if cursor.sees(Mark::OpenParen) {
            let name = named_of(self.parts.alloc, name)?;
            return self.static_call(cursor, class, name);
        }
        Ok(constant_of(self.parts.alloc, class, colons, token, name)?)
    }

    fn scoped_variable(
        &self,
        cursor: &mut Cursor<'_>,
        class: Boxed<ClassReference>,
        colons: &Token,
        token: &Token,
        name: &Items<u8>,
    ) -> Result<Boxed<Expr>, ParseFault>
        requires { Nests self.now.parts.depth (F.pre self.now.parts.nested) (F.post self.now.parts.nested) }
        ensures { Reads (spec.scoped_by (parse self.now.parts.depth) class colons.now token.now (k.Variable name.now) cursor.old) result cursor.new }
    {
        if cursor.sees(Mark::OpenParen) {
            let name = named_by_variable(self.parts.alloc, token, name)?;
            return self.static_call(cursor, class, name);
        }
        let name = Items::from_slice(self.parts.alloc, name.as_slice())?;
        Ok(Boxed::new(
            self.parts.alloc,
            Expr::StaticProperty {
                at: span(class_place(class.get()), on(token)),
                class,
                name,
            },
        )?)
    }

    /// A member of a class, at `::`.
    #[tactic(auto, unfolding(hph_fexpr::specs::Classes::scoped))]
    pub fn scoped(
        &self,
        cursor: &mut Cursor<'_>,
        class: Boxed<ClassReference>,
    ) -> Result<Boxed<Expr>, ParseFault>
        requires { Nests self.now.parts.depth (F.pre self.now.parts.nested) (F.post self.now.parts.nested) }
        ensures { Reads (spec.scoped (parse self.now.parts.depth) class cursor.old) result cursor.new }
    {
        let colons = cursor.expect(Mark::DoubleColon)?;
        let token = cursor.take()?;
        match &token.kind {
            Kind::Name(name) => self.scoped_name(cursor, class, colons, token, name),
            Kind::Variable(name) => self.scoped_variable(cursor, class, colons, token, name),
            Kind::Mark(Mark::OpenBrace) => {
                let (name, _close) = self.parts.computed(cursor)?;
                self.static_call(cursor, class, name)
            }
            _ => Err(cursor.refuse()),
        }
    }
}
