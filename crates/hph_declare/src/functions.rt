//! Functions (PHP manual, User-defined functions).

ghost use Rattle.std.specs.Prelude.{◌≡◌};
ghost use Rattle.hph_ast.specs.declared.function.Function.{roll-Function};
ghost use Rattle.hph_cursor.specs.Reads.{Reads};
ghost use Rattle.hph_cursor.specs.Steps.{and_then, take_token};
ghost use Rattle.hph_declare.specs.Nests.{Nests};
ghost use Rattle.hph_fstmt.specs.Parser as spec;
ghost use Rattle.hph_fstmt.specs.Statements as statements;

use crate::grammar::Grammar;
use hph_ast::{At, DeclaredType, Function, Identifier, Mark, Param, Statement, Token};
use hph_cursor::{Cursor, ParseFault, on, span};
use hph_parts::Expressions;
use hph_parts::boxes::boxed;
use hph_parts::words::name;
use hph_signature::params::parameters;
use hph_signature::types::result_type;
use sqlite_items::{Boxed, Items};
use std::alloc::Global;

/// What stands before a function's body.
#[derive(Drop)]
pub struct Signature {
    pub name: Identifier,
    pub params: Items<Param>,
    pub result: Option<DeclaredType>,
}

fn function_of(at: At, signature: Signature, body: Items<Statement>) -> Function
    ensures { result ≡ roll-Function (record { at = at; name = signature.name; params = signature.params; result = signature.result; body = body }) }
{
    let Signature {
        name,
        params,
        result,
    } = signature;
    Function {
        at,
        name,
        params,
        result,
        body,
    }
}

impl<
    E: Expressions + Copy,
    S: Fn(Global, E, &mut Cursor<'_>, usize) -> Result<Statement, ParseFault>,
> Grammar<E, S> {
    #[tactic(auto, using(crate::proofs::Braces::bodied))]
    fn function_body(
        &self,
        cursor: &mut Cursor<'_>,
        token: &Token,
        signature: Signature,
    ) -> Result<Boxed<Function>, ParseFault>
        requires { Nests self.now.depth (S.pre self.now.statement) (S.post self.now.statement) }
        ensures { Reads (statements.function_body spec.expressions (spec.nested self.now.depth) token.now signature.name signature.params signature.result cursor.old) result cursor.new }
    {
        let (body, close) = self.braced_statements(cursor)?;
        let at = span(on(token), on(close));
        boxed(self.parts.alloc, function_of(at, signature, body))
    }

    /// At `function`.
    #[tactic(auto, unfolding(hph_fstmt::specs::Statements::function_from, hph_fstmt::specs::Declarations::params))]
    pub fn function(&self, cursor: &mut Cursor<'_>) -> Result<Boxed<Function>, ParseFault>
        requires { Nests self.now.depth (S.pre self.now.statement) (S.post self.now.statement) }
        ensures { Reads (and_then (take_token cursor.old) (statements.function_from spec.expressions (spec.nested self.now.depth))) result cursor.new }
    {
        let token = cursor.take()?;
        let name = name(self.parts.alloc, cursor)?;
        cursor.expect(Mark::OpenParen)?;
        let params = parameters(&self.parts, cursor)?;
        let result = result_type(self.parts.alloc, cursor)?;
        self.function_body(
            cursor,
            token,
            Signature {
                name,
                params,
                result,
            },
        )
    }
}
