//! The type system of the language, and the theorem that ties the questions put to a program to it.
#![tactic(auto)]

ghost use Rattle.typing.specs.Cases.{Cases, MoreCases};
ghost use Rattle.typing.specs.Theorems.{BodiesDecided, ProgramsDecided, BytesDecided, EncodingsDecided};

/// No question is answered no exactly where a program is accepted: for bodies, programs, bytes and encodings.
pub fn typing_stands()
    ensures bodies { BodiesDecided }
    ensures programs { ProgramsDecided }
    ensures bytes { BytesDecided }
    ensures encodings { EncodingsDecided }
{}

/// The verdicts on small programs.
pub fn cases_stand()
    ensures cases { Cases }
    ensures more { MoreCases }
{}
