//! What two small formats say of their tokens.
//! The functions do nothing: their clauses are the laws.

ghost use Rattle.text_tokens.specs.declared.refusal.RefusalKind.TheVariants.{Trailing};
ghost use Rattle.text_tokens.specs.{Groups.{AreGroups, groups_to_end}, Lawful.{Exact, IsDecided}};
ghost use Rattle.text_tokens.specs.{Inputs.{IsDecidedInput}, Agreement.{AllButAgreement}};
ghost use Rattle.text_tokens.specs.{GroupFaults.{GroupsAreJudged}, GroupTexts.{GroupsAreRead}};
ghost use Rattle.text_tokens.specs.{Puts.{IsPut, put}, PutTexts.{PutsAreRead}};

/// The tokens of groups, each judged once nothing more belongs to it, are read in one way,
/// or have one first fault, and their reader answers that.
pub fn groups_are_decided()
    ensures exact { Exact AreGroups groups_to_end }
    ensures decided { IsDecided AreGroups }
    ensures input { IsDecidedInput AreGroups Trailing }
    ensures judged { GroupsAreJudged }
    ensures read { GroupsAreRead }
{}

/// So are those of a format of which two forms begin alike, and whose separators have a meaning.
pub fn puts_are_decided()
    ensures exact { Exact IsPut put }
    ensures decided { IsDecided IsPut }
    ensures read { PutsAreRead }
{}

/// Where a token is refused in one text and not in another, a grammar can say two things,
/// though every other law holds.
pub fn agreement_is_needed()
    ensures { AllButAgreement }
{}
