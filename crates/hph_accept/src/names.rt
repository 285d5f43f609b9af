//! Names, and those that stand twice (PHP manual, Classes and Objects, and User-defined functions).
ghost use Rattle.std.specs.Prelude.{◌≡◌, map};
ghost use Rattle.std.specs.List.{list_any};
ghost use Rattle.hph_ast.specs.declared.token.Identifier.{Identifier};
ghost use Rattle.hph_ast.specs.Bytes as bytes;
ghost use Rattle.hph_accept.specs.Names.{case_of, same_of, spelled};

use hph_ast::{ConstantItem, Function, Identifier, Param, PropertyItem};
use hph_names::Case;

/// Names of one sort may not be the same; those of methods ignore ASCII case.
#[derive(Clone, Copy, PartialEq, Eq)]
pub enum Sort {
    Parameters,
    Constants,
    Properties,
    Methods,
}

impl Sort {
    /// Whether names of the sort keep their case.
    pub fn case(self) -> Case
        ensures { result ≡ case_of self }
    {
        match self {
            Sort::Methods => Case::Ignored,
            Sort::Parameters | Sort::Constants | Sort::Properties => Case::Kept,
        }
    }
}

/// Whether a name is a word, in any ASCII case.
pub fn is_word(word: &[u8], name: &[u8]) -> bool
    // The word is in lower case.
    requires { map bytes.lower word.now ≡ word.now }
    ensures { result ≡ bytes.is_word word.now name.now }
{
    word.eq_ignore_ascii_case(name)
}

/// Whether two names of a sort are the same.
pub fn is_same(sort: Sort, left: &[u8], right: &[u8]) -> bool
    ensures { result ≡ same_of sort left.now right.now }
{
    match sort {
        Sort::Methods => left.eq_ignore_ascii_case(right),
        Sort::Parameters | Sort::Constants | Sort::Properties => left == right,
    }
}

/// What has a name.
pub trait Named: Sized {
    /// Its name.
    ghost name_of: { Self → Identifier };

    /// Its name.
    fn name(&self) -> &Identifier
        ensures { result.now ≡ name_of self.now };
}

impl Named for ConstantItem {
    ghost name_of = { λ i. i.name };

    fn name(&self) -> &Identifier {
        &self.name
    }
}

impl Named for PropertyItem {
    ghost name_of = { λ i. i.name };

    fn name(&self) -> &Identifier {
        &self.name
    }
}

impl Named for Param {
    ghost name_of = { λ i. i.name };

    fn name(&self) -> &Identifier {
        &self.name
    }
}

impl Named for Function {
    ghost use Rattle.hph_ast.specs.declared.function.Function.{out-Function};

    ghost name_of = { λ f. (out-Function f).name };

    fn name(&self) -> &Identifier {
        &self.name
    }
}

/// Whether one of these has a name.
pub fn is_among<T: Named>(sort: Sort, items: &[T], name: &Identifier) -> bool
    ensures { result ≡ list_any (same_of sort name.now.spelled) (spelled (map T.name_of items.now)) }
{
    for item in items {
        if is_same(
            sort,
            name.spelled.as_slice(),
            item.name().spelled.as_slice(),
        ) {
            return true;
        }
    }
    false
}
