// Reading a module section by section, from the front. Each law is the contract of a function that does nothing.
ghost use Rattle.hph_wasm.specs.Reading.{ReadingGoesOn, ReadingEnds, ReadingLacksCode, ReadingStops, ReadingFails, HeaderLacks};

/// What is known where whole sections were read, and one more is, or the bytes end, or nothing may stand next
/// (Core Specification 1.0, 5.5.15): so a reader that goes on section by section gives the module that is spelled, or
/// what is left out and where, or that the bytes are malformed.
pub fn sections_are_read_in_turn()
    ensures goes_on { ReadingGoesOn }
    ensures ends { ReadingEnds }
    ensures lacks_code { ReadingLacksCode }
    ensures stops { ReadingStops }
    ensures fails { ReadingFails }
    ensures no_header { HeaderLacks }
{}
