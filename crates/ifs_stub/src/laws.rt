//! Laws on stub files.

ghost use Rattle.ifs_stub.specs.Laws.{StubsHaveTheirParts, StubsEndAtTheirPlace, StubsAreSmall, StubsAreRead, StubsKeepInterfaces, StubsKeepFacts, StubsAreReadBack, StubsHaveTheFacts, StubsAreMade, ExtractedHaveStubs, ExtractedAreMade, ExtractedAreKept, ExtractedKeepFacts, StubsOfLibrariesHaveTheirFacts};

/// Each part of a stub file stands at its place, with zeros between the parts. The file ends behind the last one, and has
/// less than 75,497,472 bytes.
pub fn stubs_have_their_size()
    ensures parts { StubsHaveTheirParts }
    ensures places { StubsEndAtTheirPlace }
    ensures small { StubsAreSmall }
{}

/// A stub is read as the library that it stands for, which has the soname and the needed libraries of the interface
/// and one row for each symbol. The interface of that library is the one that the stub was made from, but for
/// what a stub has no place for: an unknown type is no type, an absent size is 0, and warnings and the name of the
/// triple are gone. Its facts are those of the interface.
pub fn stubs_are_read_back()
    ensures read { StubsAreRead }
    ensures kept { StubsKeepInterfaces }
    ensures facts { StubsKeepFacts }
    ensures read_back { StubsAreReadBack }
    ensures have_facts { StubsHaveTheFacts }
{}

/// The interface of a library that was read has a stub of the library's machine, order and width: it is within the
/// limits, and its sizes have their places. Where all types are known, the stub has all of the interface. The facts of
/// the interface are those of the library, and so are the facts of the stub.
pub fn extracted_interfaces_have_stubs()
    ensures made { StubsAreMade }
    ensures extracted { ExtractedHaveStubs }
    ensures extracted_made { ExtractedAreMade }
    ensures kept { ExtractedAreKept }
    ensures facts { ExtractedKeepFacts }
    ensures stubs_have_facts { StubsOfLibrariesHaveTheirFacts }
{}
