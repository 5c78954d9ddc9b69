// Theorems about the definitions, each on the contract of a function that does nothing.
ghost use Rattle.logic.specs.Laws.{ConceptsStay, MembershipDecided, Admitted, MinimalExists};
ghost use Rattle.logic.specs.Likeness.{AlikeSatisfy};
ghost use Rattle.logic.specs.Limits.{LongerListsFit};
ghost use Rattle.logic.specs.Soundness.{Soundness, NamedLive, NoModel};
ghost use Rattle.logic.specs.Examples.{Examples};

// Appended nodes leave the concepts of earlier nodes unchanged.
pub fn concepts_stay()
    ensures { ConceptsStay }
{}

// In every model an element is in a concept or it is not.
pub fn membership_decided()
    ensures { MembershipDecided }
{}

// An admitted concept has a better element.
pub fn admitted()
    ensures { Admitted }
{}

// If some better element has a property, a minimal one does.
pub fn minimal_exists()
    ensures { MinimalExists }
{}

// Models that agree on "better" and on all that a book can mention satisfy the same books.
pub fn alike_satisfy()
    ensures { AlikeSatisfy }
{}

// No finite preferential model makes true all entries that a closed tableau over a well-formed book
// names. These entries are live, so no model satisfies the live entries of the book.
pub fn calculus_sound()
    ensures named { Soundness }
    ensures live { NamedLive }
    ensures books { NoModel }
{}

// A closed tableau that fits lists fits longer ones.
pub fn longer_lists_fit()
    ensures { LongerListsFit }
{}

// The sample book has a model; with one more fact it has a closed tableau; and of a wrong hand-in over
// the sample book, no rule permits the last step.
pub fn examples_hold()
    ensures { Examples }
{}
