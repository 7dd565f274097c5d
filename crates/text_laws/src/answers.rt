// What the commands' answers say of the rows that may come. The functions do nothing: their clauses are the laws.
ghost use Rattle.text_laws.specs.Answers.{ValidSaysOfRows, ExplainedSaysOfRows, ExplainedHoldsForEver, SavedSaysOfRows, RelatedStatusIsForEver};

/// Where `check` puts `VALID v`, the texts state one comparison, and v says of its rows what its word says; so does what is said of reach.
pub fn law_valid()
    ensures { ValidSaysOfRows }
{}

/// Where `explain` puts a report, the verdict of the finding says so too, and each candidate that is listed as kept holds at the start and
/// after each row of every list of allowed rows.
pub fn law_explained()
    ensures says { ExplainedSaysOfRows }
    ensures holds { ExplainedHoldsForEver }
{}

/// Where `verify` puts a verdict, so does that; and after the status of RELATED the pair that the texts state is related after each row of
/// every list of allowed rows.
pub fn law_saved()
    ensures says { SavedSaysOfRows }
    ensures related { RelatedStatusIsForEver }
{}
