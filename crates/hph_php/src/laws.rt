//! Laws of the definitions in specs/. Each is the contract of a function that does nothing, so that crates above can cite it.

ghost use Rattle.std.specs.Prelude.{◌≡◌, ◌⊎◌, ◌+◌, ◌++◌, ◌<◌, ℕ, ℤ, List, ◌∷◌, Ok, Err, Some, map, length, true};
ghost use Rattle.std.specs.Ordering.{ordering_reverse};
ghost use Rattle.std.specs.Fmt.{signed_decimal};
ghost use Rattle.hph_num.specs.Range.{fits_i64};
ghost use Rattle.hph_array.specs.declared.key.Key.{Key};
ghost use Rattle.hph_array.specs.declared.key.Key.TheVariants as key;
ghost use Rattle.hph_case.specs.declared.cases.Row.{Row};
ghost use Rattle.hph_case.specs.Table.{codes};
ghost use Rattle.hph_case.specs.Fatals.{fatals};
ghost use Rattle.hph_case.specs.Operators.{operators};
ghost use Rattle.hph_case.specs.Builtins.{builtins};
ghost use Rattle.hph_case.specs.Imports as table;
ghost use Rattle.hph_php.specs.declared.fatal.Fatal.TheVariants.{ArrayOrder, TooFewArguments};
ghost use Rattle.hph_php.specs.declared.builtin.Builtin.{Builtin as Function};
ghost use Rattle.hph_php.specs.Values.{Value, Str, Pairs, listed, paired};
ghost use Rattle.hph_php.specs.NumericStrings.{numeric_of, Whole, IsWhole};
ghost use Rattle.hph_php.specs.Conversions.{map_ok, key_of_text, to_key};
ghost use Rattle.hph_php.specs.Comparison.{loose_order, loosely_equal, by_order, identical};
ghost use Rattle.hph_php.specs.Arrays.{Array, get, set};
ghost use Rattle.hph_php.specs.StringFunctions.{implode, explode};
ghost use Rattle.hph_php.specs.Builtins.{builtin_of, takes_values, least_arguments};
ghost use Rattle.hph_php.specs.Codes.{fatal_code, all_fatals, binary_code, binary_operators, unary_code, unary_operators, builtin_code};
ghost use Rattle.hph_php.specs.Codes.{all_builtins};
ghost use Rattle.hph_php.specs.Imports.{Import, imports, row_named};

/// Pairs are the list that they stand for.
#[tactic(auto, using(crate::proofs::ValueLaws::list_of_pairs, crate::proofs::ValueLaws::pairs_of_list))]
pub fn pairs_are_their_list()
    ensures list { (pairs : List (Key × Value)) → listed (paired pairs) ≡ pairs }
    ensures pairs { (pairs : Pairs) → paired (listed pairs) ≡ pairs }
{}

/// A string is a whole number by its definition exactly where the rule in its own words says so.
#[tactic(auto, using(crate::proofs::NumericLaws::whole_of_numeric))]
pub fn whole_strings_are_framed_digits()
    ensures whole { (bytes : List ℕ) (z : ℤ) → IsWhole bytes z → numeric_of bytes ≡ Whole z }
    ensures framed { (bytes : List ℕ) (z : ℤ) → numeric_of bytes ≡ Whole z → IsWhole bytes z }
{}

/// A string is an int as a key exactly where it is the decimal of that int.
#[tactic(auto, using(crate::proofs::KeyLaws::key_of_decimal, crate::proofs::KeyLaws::decimal_of_key))]
pub fn decimals_are_int_keys()
    ensures int { (z : ℤ) → fits_i64 z ≡ true → to_key (Str (signed_decimal z)) ≡ Ok (key.Int z) }
    ensures decimal { (bytes : List ℕ) (z : ℤ) → key_of_text bytes ≡ key.Int z → bytes ≡ signed_decimal z }
{}

/// A value is identical with itself.
#[tactic(auto, using(crate::proofs::ComparisonLaws::identical_with_itself))]
pub fn identity_is_reflexive()
    ensures { (v : Value) → identical v v ≡ true }
{}

/// Loose equality is that of the loose order, but for two arrays, which have no order.
#[tactic(auto, using(crate::proofs::ComparisonLaws::equal_by_order))]
pub fn equality_goes_by_order()
    ensures { (a b : Value) → (loose_order a b ≡ Err ArrayOrder) ⊎ (loosely_equal a b ≡ by_order a b) }
{}

/// The loose order turns round with its operands, and has the same fatal errors.
#[tactic(auto, using(crate::proofs::ComparisonLaws::order_turned))]
pub fn order_turns_round()
    ensures { (a b : Value) → loose_order b a ≡ map_ok ordering_reverse (loose_order a b) }
{}

/// What is set at a key is found there.
#[tactic(auto, using(crate::proofs::ValueLaws::get_of_set))]
pub fn values_are_found()
    ensures { (a : Array Value) (key : Key) (v : Value) → get (set a key v) key ≡ Some v }
{}

/// The pieces of a string, joined by the separator, are the string.
#[tactic(auto, using(crate::proofs::PieceLaws::joined_pieces))]
pub fn pieces_are_joined()
    ensures { (b : ℕ) (separator bytes : List ℕ) → implode (b ∷ separator) (explode (b ∷ separator) bytes) ≡ bytes }
{}

/// The codes of kinds of fatal errors and of operators are those of the case tables, where a unary operator's is raised by 32.
#[tactic(auto, using(crate::proofs::TableLaws::fatal_codes, crate::proofs::TableLaws::operator_codes))]
pub fn codes_are_of_the_tables()
    ensures fatals { map fatal_code all_fatals ≡ codes fatals }
    ensures operators { map binary_code binary_operators ++ map (λ o. 32 + unary_code o) unary_operators ≡ codes operators }
{}

/// The codes and least numbers of arguments of the built-in functions are those of their case table.
#[tactic(auto, using(crate::proofs::TableLaws::builtin_codes, crate::proofs::TableLaws::least_numbers))]
pub fn builtins_are_of_the_table()
    ensures codes { map builtin_code all_builtins ≡ codes builtins }
    ensures arguments { map least_arguments all_builtins ≡ map (λ (r : Row). r.tag) builtins }
{}

/// The imports are the rows of their case table, with as many parameters, and each name is that of one row.
#[tactic(auto, using(crate::proofs::TableLaws::import_parameters, crate::proofs::TableLaws::import_names))]
pub fn imports_are_of_the_table()
    ensures parameters { map (λ (i : Import). length i.type.params) imports ≡ map (λ (r : Row). r.tag) table.imports }
    ensures rows { map (λ (i : Import). row_named i.name) imports ≡ map Some (codes table.imports) }
{}

/// A call of a built-in function with fewer arguments than its least number is TooFewArguments.
#[tactic(auto, using(crate::proofs::TableLaws::too_few_arguments))]
pub fn arguments_are_counted()
    ensures { (f : Function) (values : List Value) → takes_values f ≡ true → length values < least_arguments f
        → (builtin_of f values).value ≡ Err TooFewArguments }
{}
