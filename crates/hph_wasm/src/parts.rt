// That each part of a module's bytes can be read in one way. Each law is the contract of a function that does nothing.
ghost use Rattle.std.specs.Prelude.{ℕ};
ghost use Rattle.std.specs.List.{AllByRecursion};
ghost use Rattle.hph_wasm.specs.Leb128.{Unsigned, Signed};
ghost use Rattle.hph_wasm.specs.Grammar.{Bytes, Named, ValueType, ResultType, FunctionType, MemoryType, TableType, GlobalOf};
ghost use Rattle.hph_wasm.specs.InstructionGrammar.{MemoryArgument, Instruction, Expression};
ghost use Rattle.hph_wasm.specs.ModuleGrammar.{Imported, GlobalWithValue, Exported, Elements, LocalRun, Locals, Code, Data, RawSection};
ghost use Rattle.hph_wasm.specs.Unsupported.{IsSmallImport, IsSmallMemory, IsSmallTable, IsSmallCode, AreFew, IsAnything, IsShallowExpression, HasShallowValue, HasShallowEntry, HasShallowPlace, StopsValueType, StopsFunctionType, StopsMemoryType, StopsTableType, StopsExpression, StopsImported, StopsGlobal, StopsOffset, StopsLocals, StopsCode};
ghost use Rattle.hph_wasm.specs.OneWay.{OneForm, OneStop, SequencesAreAlike, SequencesStopOnce, ClosedSequencesDontStop, ShallowInstructionsDontStop};

/// Numbers, names and types can be read in one way: no spelling begins another, and each spells one thing
/// (Core Specification 1.0, 5.2 and 5.3).
pub fn types_are_read_in_one_way()
    ensures unsigned { (bits : ℕ) → OneForm (Unsigned bits) }
    ensures signed { (bits : ℕ) → OneForm (Signed bits) }
    ensures bytes { OneForm Bytes }
    ensures names { OneForm Named }
    ensures value_types { OneForm ValueType }
    ensures result_types { OneForm ResultType }
    ensures function_types { OneForm FunctionType }
    ensures memory_types { OneForm MemoryType }
    ensures table_types { OneForm TableType }
    ensures global_types { OneForm GlobalOf }
{}

/// Instructions and expressions can be read in one way, and so can sequences before an end or an `else` (5.4).
pub fn instructions_are_read_in_one_way()
    ensures memory_arguments { OneForm MemoryArgument }
    ensures instructions { OneForm Instruction }
    ensures expressions { OneForm Expression }
    ensures sequences { SequencesAreAlike }
{}

/// What stands in sections can be read in one way, and so can sections (5.5).
pub fn sections_are_read_in_one_way()
    ensures imports { OneForm Imported }
    ensures globals { OneForm GlobalWithValue }
    ensures exports { OneForm Exported }
    ensures elements { OneForm Elements }
    ensures local_runs { OneForm LocalRun }
    ensures locals { OneForm Locals }
    ensures codes { OneForm Code }
    ensures segments { OneForm Data }
    ensures sections { OneForm RawSection }
{}

/// What is left out of a part is met in one place of it at most, and in none of a part that is read.
pub fn parts_stop_in_one_place()
    ensures value_types { OneStop ValueType IsAnything StopsValueType }
    ensures function_types { OneStop FunctionType IsAnything StopsFunctionType }
    ensures memory_types { OneStop MemoryType IsSmallMemory StopsMemoryType }
    ensures table_types { OneStop TableType IsSmallTable StopsTableType }
    ensures global_types { OneStop GlobalOf IsAnything StopsValueType }
    ensures instructions { ShallowInstructionsDontStop }
    ensures sequences { SequencesStopOnce }
    ensures closed_sequences { ClosedSequencesDontStop }
    ensures expressions { OneStop Expression IsShallowExpression StopsExpression }
    ensures imports { OneStop Imported IsSmallImport StopsImported }
    ensures globals { OneStop GlobalWithValue HasShallowValue StopsGlobal }
    ensures elements { OneStop Elements HasShallowEntry StopsOffset }
    ensures locals { OneStop Locals AreFew StopsLocals }
    ensures codes { OneStop Code IsSmallCode StopsCode }
    ensures segments { OneStop Data HasShallowPlace StopsOffset }
{}
