//! Laws of programs: contracts of functions that do nothing.

ghost use Rattle.hph_program.specs.Laws.{TokensAreOne, TreesAreOne, ProgramsAreOne, ContentsDecide, SourcesHaveNoFault, FaultlessFilesAreSources, WavesAreClosed};

/// A file of a program has no fault, and each file without a fault can be one of a program.
pub fn sources_have_no_fault()
    ensures none { SourcesHaveNoFault }
    ensures source { FaultlessFilesAreSources }
{}

/// The files of all waves from a main file on include no file that isn't among them.
pub fn waves_are_closed()
    ensures { WavesAreClosed }
{}

/// From a main file on a source tree has at most one program, where bytes spell at most one list of tokens and tokens at most
/// one tree. How much room the texts of its paths have is left open.
pub fn one_program()
    ensures { TokensAreOne → TreesAreOne → ProgramsAreOne }
{}

/// What a program prints, how it ends, what it calls and its cost are told by the contents of its files.
pub fn contents_decide()
    ensures { ContentsDecide }
{}
