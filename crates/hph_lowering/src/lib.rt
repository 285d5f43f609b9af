//! The lowering: the code of each construct of the language, as folds over trees in specs/, one clause a form, by the names that the
//! meanings have. It calls the imports by the numbers of their rows, as if all rows were imported. No code yet.
#![tactic(auto)]
