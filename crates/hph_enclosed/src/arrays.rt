//! Elements of arrays and of destructurings.

ghost use Rattle.hph_cursor.specs.Reads.{Reads, ReadsAs};
ghost use Rattle.hph_enclosed.specs.Nests.{Nests, passes};
ghost use Rattle.hph_fexpr.specs.Parser.{parse};
ghost use Rattle.hph_fexpr.specs.Arrays as spec;

use crate::grammar::Grammar;
use hph_ast::{Expr, Item, Mark};
use hph_cursor::{Cursor, ParseFault, is_source, is_target, is_written_only, on, place, span};
use hph_fexpr::{Elements, Form};
use sqlite_items::{Boxed, Items};
use std::alloc::Global;

impl<F: Fn(Global, &mut Cursor<'_>, usize, Form) -> Result<Boxed<Expr>, ParseFault>> Grammar<F> {
    /// A path behind `&`.
    #[tactic(auto, unfolding(hph_fexpr::specs::Arrays::source))]
    pub fn source(&self, cursor: &mut Cursor<'_>) -> Result<Boxed<Expr>, ParseFault>
        requires { Nests self.now.depth (F.pre self.now.nested) (F.post self.now.nested) }
        ensures { Reads (spec.source (parse self.now.depth) cursor.old) result cursor.new }
    {
        let path = self.path(cursor)?;
        if is_source(path.get()) {
            Ok(path)
        } else {
            Err(cursor.refuse())
        }
    }

    #[tactic(auto, unfolding(hph_fexpr::specs::Arrays::reference))]
    fn reference(&self, cursor: &mut Cursor<'_>) -> Result<Item, ParseFault>
        requires { Nests self.now.depth (F.pre self.now.nested) (F.post self.now.nested) }
        ensures { Reads (spec.reference (parse self.now.depth) cursor.old) result cursor.new }
    {
        let first = cursor.take()?;
        let value = self.source(cursor)?;
        Ok(Item::Reference {
            at: span(on(first), place(value.get())),
            value,
        })
    }

    #[tactic(auto, unfolding(hph_fexpr::specs::Arrays::keyed_reference))]
    fn keyed_reference(&self, cursor: &mut Cursor<'_>, key: Boxed<Expr>) -> Result<Item, ParseFault>
        requires { Nests self.now.depth (F.pre self.now.nested) (F.post self.now.nested) }
        ensures { Reads (spec.keyed_reference (parse self.now.depth) key cursor.old) result cursor.new }
    {
        let ampersand = cursor.take()?;
        let value = self.source(cursor)?;
        Ok(Item::KeyedReference {
            at: span(place(key.get()), place(value.get())),
            key,
            value,
            ampersand: ampersand.start,
        })
    }

    /// Behind the key and `=>`.
    #[tactic(auto, unfolding(hph_fexpr::specs::Arrays::keyed))]
    fn keyed(&self, cursor: &mut Cursor<'_>, key: Boxed<Expr>) -> Result<Item, ParseFault>
        requires { Nests self.now.depth (F.pre self.now.nested) (F.post self.now.nested) }
        ensures { Reads (spec.keyed (parse self.now.depth) key cursor.old) result cursor.new }
    {
        if cursor.sees_ampersand() {
            return self.keyed_reference(cursor, key);
        }
        let value = self.value(cursor)?;
        Ok(Item::Keyed {
            at: span(place(key.get()), place(value.get())),
            key,
            value,
        })
    }

    /// Behind the key, at `=>`.
    #[tactic(auto, unfolding(hph_fexpr::specs::Arrays::keyed_by))]
    fn keyed_by(&self, cursor: &mut Cursor<'_>, key: Boxed<Expr>) -> Result<Item, ParseFault>
        requires { Nests self.now.depth (F.pre self.now.nested) (F.post self.now.nested) }
        ensures { Reads (spec.keyed_by (parse self.now.depth) key cursor.old) result cursor.new }
    {
        if is_written_only(key.get()) {
            return Err(cursor.refuse());
        }
        cursor.take()?;
        self.keyed(cursor, key)
    }

    #[tactic(auto, unfolding(hph_fexpr::specs::Arrays::valued))]
    fn valued(&self, cursor: &mut Cursor<'_>) -> Result<Item, ParseFault>
        requires { Nests self.now.depth (F.pre self.now.nested) (F.post self.now.nested) }
        ensures { Reads (spec.valued (parse self.now.depth) cursor.old) result cursor.new }
    {
        let value = self.value(cursor)?;
        if cursor.sees(Mark::DoubleArrow) {
            return self.keyed_by(cursor, value);
        }
        Ok(Item::Plain {
            at: place(value.get()),
            value,
        })
    }

    #[tactic(auto, unfolding(hph_fexpr::specs::Arrays::element))]
    fn element(&self, cursor: &mut Cursor<'_>) -> Result<Item, ParseFault>
        requires { Nests self.now.depth (F.pre self.now.nested) (F.post self.now.nested) }
        ensures { Reads (spec.element (parse self.now.depth) cursor.old) result cursor.new }
    {
        if cursor.sees_ampersand() {
            self.reference(cursor)
        } else {
            self.valued(cursor)
        }
    }

    /// Elements and holes behind the bracket that opens, up to the one that closes.
    pub fn elements(&self, cursor: &mut Cursor<'_>, closing: Mark) -> Result<Elements, ParseFault>
        requires { Nests self.now.depth (F.pre self.now.nested) (F.post self.now.nested) }
        ensures { Reads (spec.elements (parse self.now.depth) closing cursor.old) result cursor.new }
    {
        let mut items = Items::new(self.alloc);
        let mut targets = false;
        for _turn in 0..cursor.left() {
            if cursor.sees(closing) {
                let close = on(cursor.take()?);
                return Ok(Elements {
                    items,
                    targets,
                    close,
                });
            }
            if cursor.sees(Mark::Comma) {
                let comma = cursor.take()?;
                items.push(Item::Hole { at: on(comma) })?;
                targets = true;
            } else {
                let item = self.element(cursor)?;
                targets = targets || is_target(&item);
                items.push(item)?;
                if !cursor.sees(Mark::Comma) {
                    let close = on(cursor.expect(closing)?);
                    return Ok(Elements {
                        items,
                        targets,
                        close,
                    });
                }
                cursor.take()?;
            }
        }
        Err(cursor.refuse())
    }
}
