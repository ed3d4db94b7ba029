//! What holds of the frame, whatever its sections are.
//! The functions do nothing: their clauses are the laws.

ghost use Rattle.std.specs.Prelude.{List};
ghost use Rattle.text_tokens.specs.{Reading.{Reader}, Grammar.{Symbol}};
ghost use Rattle.shape_files.specs.Documents.{Body, DocumentsAreDecided, FormsAreStraight};
ghost use Rattle.shape_files.specs.{DocumentReaders.{body}, DocumentRows.{DocumentsAreRead}};
ghost use Rattle.shape_files.specs.{RunTexts.{RunsAreReplayed}, WholeTexts.{DocumentsReadBack}};
ghost use Rattle.shape_files.specs.{WholeTextRows.{WholeTextRows}, Fitting.{DocumentsAreSound, DocumentsFit}};
ghost use Rattle.shape_files.specs.LeastVersions.{DecidedFromEach, EarlierIsBadRange, LaterIsDocument};
ghost use Rattle.shape_files.specs.LeastVersions.{DocumentIsLater, LaterHasOldValues};
ghost use Rattle.shape_files.specs.FrameLaws.{AreSections, FrameLaw, HeaderIsDecided, StraightLaw};
ghost use Rattle.shape_files.specs.FrameLaws.{FormsAreDistinct};
ghost use Rattle.shape_files.specs.declared.section_kind.Section.{Section as SectionValue};

/// The sections of a document, each in the state that those before it gave,
/// with what it makes of the state.
pub trait Sectioned {
    ghost is: { SectionValue → Self → List Symbol → Self → Type 0 };

    ghost reads: { SectionValue → Self → Reader Self };
}

/// Of any tokens the frame says one thing for each form: they are a document,
/// or have one first fault, and its reader answers that.
pub fn in_frame<S: Sectioned>()
    ensures { FrameLaw S.is S.reads }
{}
/// The documents of a form are those of the form as it is written down,
/// one section behind the other.
pub fn forms_are_straight<S: Sectioned>()
    ensures texts { StraightLaw S.is }
    ensures forms { FormsAreDistinct }
{}

/// A text is a document of a form in one way, or has one first fault, and never both.
///
/// So is the header alone. The sections of documents are such as the frame asks for.
/// Each form is that which is written down. Some texts are documents, or have this first fault.
pub fn documents_are_decided()
    ensures decided { DocumentsAreDecided }
    ensures header { HeaderIsDecided }
    ensures sections { AreSections Body body }
    ensures straight { FormsAreStraight }
    ensures read { DocumentsAreRead }
{}

/// From a least version on, documents are those of the form whose version is not below the least.
///
/// A text is one in one way, or has one first fault, and never both.
/// A version below the least is a `BadRange` at its number, whatever comes behind it.
/// From version 3 on a journal has old values.
pub fn least_versions_are_kept()
    ensures decided { DecidedFromEach }
    ensures earlier { EarlierIsBadRange }
    ensures document { LaterIsDocument }
    ensures later { DocumentIsLater }
    ensures values { LaterHasOldValues }
{}

/// A document of the form Run whose last byte is a line feed, followed by the text of a run,
/// is one of the form Replay, with the run's entries and its last configuration.
pub fn runs_are_replayed()
    ensures { RunsAreReplayed }
{}

/// A document that is printed whole has exactly what was printed, lines of the program aside.
///
/// That is the header, the canonical program, and the shape, the journal,
/// the last shape and the turns, as far as each is there.
/// It is so in the forms that need no lists: Check, Replay and Measure.
/// Of the turns it says only that their section is read, since a document does not keep them.
/// The texts of three small documents are written out.
pub fn documents_read_back()
    ensures law { DocumentsReadBack }
    ensures small { WholeTextRows }
{}

/// What a document has fits together: it has the sections of its form,
/// its maxima are those of its program, and its lists,
/// its schedule and its entries name only amoebots, callers and actions that there are.
pub fn documents_fit()
    ensures { DocumentsFit }
{}

/// The shapes of a document are those of worlds, and its lists are such as callers may have.
pub fn documents_are_sound()
    ensures { DocumentsAreSound }
{}
