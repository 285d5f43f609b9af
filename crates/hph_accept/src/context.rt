//! Where a node stands.
ghost use Rattle.std.specs.Prelude.{◌≡◌};
ghost use Rattle.hph_ast.specs.RefusedExpressions as refused;
ghost use Rattle.hph_ast.specs.RefusedStatements as statements;
ghost use Rattle.hph_accept.specs.Enclosed.{seen};

use crate::enclosing::Enclosing;
use std::alloc::Global;

/// Where a node stands: what is round it decides whether it is refused.
#[derive(Clone, Copy)]
pub struct Context<'a> {
    pub alloc: Global,
    pub in_function: bool,
    /// `$this` is there: in a method that isn't static.
    pub has_this: bool,
    pub in_class: bool,
    pub has_parent: bool,
    /// In the path of an include.
    pub in_include: bool,
    pub loops: Enclosing<'a>,
}

impl<'a> Context<'a> {
    /// Outside functions and classes.
    pub fn top_level(alloc: Global) -> Context<'a>
        ensures { seen result ≡ statements.top_level }
    {
        Context {
            alloc,
            in_function: false,
            has_this: false,
            in_class: false,
            has_parent: false,
            in_include: false,
            loops: Enclosing::Nothing,
        }
    }

    /// In a function that is no method.
    pub fn in_plain_function(alloc: Global) -> Context<'a>
        ensures { seen result ≡ statements.in_plain_function }
    {
        Context {
            in_function: true,
            ..Context::top_level(alloc)
        }
    }

    /// Among the members of a class.
    pub fn in_class(alloc: Global, has_parent: bool) -> Context<'a>
        ensures { seen result ≡ statements.in_class has_parent }
    {
        Context {
            in_class: true,
            has_parent,
            ..Context::top_level(alloc)
        }
    }

    /// In a method of the class whose members stand here.
    pub fn in_method(self, is_static: bool) -> Context<'a>
        ensures { seen result ≡ statements.in_method (seen self.entry) is_static }
    {
        Context {
            in_function: true,
            has_this: !is_static,
            ..self
        }
    }

    /// In the path of an include that stands here.
    pub fn in_path(self) -> Context<'a>
        ensures { seen result ≡ refused.in_path (seen self.entry) }
    {
        Context {
            in_include: true,
            ..self
        }
    }

    /// In a loop or a switch that stands here.
    pub fn in_loop(&'a self) -> Context<'a>
        ensures { seen result ≡ statements.in_loop (seen self.now) }
    {
        Context {
            loops: Enclosing::Within(&self.loops),
            ..*self
        }
    }
}
